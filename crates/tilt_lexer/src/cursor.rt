// The next token of a text.
ghost use Rattle.std.specs.Prelude.{◌≡◌, ◌≢◌, ◌≤◌, [], length, drop, IfOk, IfErr, MatchOption};
ghost use Rattle.std.specs.List.{prefix_len};
ghost use Rattle.tilt_lexer.specs.Next.{IsNext, IsNextFault};
ghost use Rattle.tilt_lexer.specs.Tokens.{is_blank, AreTokens};
ghost use Rattle.tilt_lexer.specs.declared.fault.LexFault.{LexFault};

use crate::fault::LexFault;
use crate::front::front_token;
use crate::lexer::is_blank;
use crate::token::Token;
use std::alloc::Global;

/// The first token of a text from a place on, after any blanks, or `None` if nothing but blanks is left there. What follows the
/// token isn't read. The fault is the one at the first place that is no blank, as `lex` reports it. A caller that goes on at each
/// token's end gets the tokens that `lex` gives, and needs memory for one at a time.
pub fn next_token(alloc: Global, bytes: &[u8], at: usize) -> Result<Option<Token>, LexFault>
    requires { at ≤ length bytes.now }
    ensures next { IfOk result (λ found. MatchOption found
        (AreTokens at (drop at bytes.now) [])
        (λ token. IsNext at (drop at bytes.now) token (drop token.end bytes.now))) }
    ensures faulty { IfErr result (λ fault. fault ≢ LexFault.OutOfMemory → IsNextFault at (drop at bytes.now) fault) }
{
    let start = at + blanks_length(&bytes[at..]);
    if start == bytes.len() {
        return Ok(None);
    }
    let (kind, length) = front_token(alloc, &bytes[start..], start as u64)?;
    Ok(Some(Token {
        kind,
        start: start as u64,
        end: (start + length) as u64,
    }))
}

// How many blanks stand at the beginning.
fn blanks_length(bytes: &[u8]) -> usize
    ensures blanks { result ≡ prefix_len is_blank bytes.now }
    ensures within { result ≤ length bytes.now }
{
    bytes.iter().take_while(|byte| is_blank(**byte)).count()
}
