// The one pass over the text.
ghost use Rattle.std.specs.Prelude.{◌≡◌, ◌≢◌, ◌+◌, ◌^◌, ◌<◌, ◌⊎◌, List, [], ◌∷◌, ◌++◌, All, IfOk, IfErr, OnOk, MatchResult};
ghost use Rattle.tilt_lexer.specs.declared.fault.LexFault.{LexFault};
ghost use Rattle.tilt_lexer.specs.declared.token.Token.{Token};
ghost use Rattle.tilt_lexer.specs.Tokens.{is_blank, IsSound, AreTokens, IsFaultyAt};

use crate::fault::LexFault;
use crate::front::front_token;
use crate::token::{Tok, Token};
use std::alloc::{AllocError as OutOfMemory, Global};

/// The tokens of a query's text: at each place the longest that begins there, with blanks (space, tab, LF, CR) between
/// them if there are any. The first faulty place is an error: `BadByte` if the byte there is no blank and begins no
/// token, `BigNumber` if the digits there spell more than 9223372036854775807.
pub fn lex(alloc: Global, bytes: &[u8]) -> Result<Vec<Token>, LexFault>
    ensures tokens { IfOk result (λ tokens. AreTokens 0 bytes.now tokens.items) }
    ensures faulty { IfErr result (λ fault. fault ≢ LexFault.OutOfMemory → IsFaultyAt 0 bytes.now fault) }

    // What a reader of tokens may rely on.
    ensures sound { IfOk result (λ tokens. All (λ token. IsSound token.kind) tokens.items) }

    // Nothing else is: no other tokens, and no other fault.
    ensures only { (tokens : List Token) → AreTokens 0 bytes.now tokens →
        MatchResult result (λ found. found.items ≡ tokens) (λ fault. fault ≡ LexFault.OutOfMemory) }
    ensures first { (first : LexFault) → IsFaultyAt 0 bytes.now first →
        MatchResult result (λ _. ⊥) (λ fault. (fault ≡ first) ⊎ (fault ≡ LexFault.OutOfMemory)) }
{
    let mut tokens = Vec::new(alloc);
    let mut at = 0;
    while at < bytes.len() {
        let rest = &bytes[at..];
        if is_blank(rest[0]) {
            at += 1;
        } else {
            let (kind, length) = front_token(alloc, rest, at as u64)?;
            push_token(&mut tokens, kind, at as u64, length as u64)?;
            at += length;
        }
    }
    Ok(tokens)
}

// Adds a token that starts at a place and has that many bytes.
fn push_token(
    tokens: &mut Vec<Token>,
    kind: Tok,
    start: u64,
    length: u64,
) -> Result<(), OutOfMemory>
    requires { start + length < 2 ^ 64 }
    ensures { OnOk result (tokens.new.items
        ≡ tokens.old.items ++ record { kind = kind; start = start; end = start + length } ∷ []) }
{
    tokens.push(Token {
        kind,
        start,
        end: start + length,
    })?;
    Ok(())
}

// Whether the byte occurs only between tokens.
pub(crate) fn is_blank(byte: u8) -> bool
    ensures { result ≡ is_blank byte }
{
    matches!(byte, b' ' | b'\t' | b'\n' | b'\r')
}
