// From a text to the query that it is.
ghost use Rattle.std.specs.Prelude.{◌≡◌, ◌≢◌, ◌⊎◌, All, List, IfOk, IfErr, MatchResult};
ghost use Rattle.tilt_lexer.specs.Tokens.{AreTokens, IsFaultyAt, IsSound};
ghost use Rattle.tilt_lexer.specs.declared.fault.LexFault.{LexFault};
ghost use Rattle.tilt_lexer.specs.declared.token.Token.{Token};
ghost use Rattle.tilt_syntax.specs.Query.{kinds};
ghost use Rattle.tilt_syntax.specs.Text.{IsQueryText, IsRefusedText};
ghost use Rattle.tilt_syntax.specs.Tree.{StatementTree};
ghost use Rattle.tilt_syntax.specs.Trimmed.{trimmed};
ghost use Rattle.tilt_syntax.specs.declared.fault.TextFault.{TextFault};

use crate::fault::TextFault;
use crate::kept::Kept;
use crate::parser::parse;
use crate::query::Query;
use std::alloc::Global;
use tilt_lexer::{LexFault, Token, next_token};

/// The query that the text is. It is rejected for the fault that `lex` returns for it, or if it has tokens, for the fault that `parse`
/// returns for those. However long the text is, at most 257 statements of 258 tokens are kept at a time; a token after them is read and
/// discarded.
pub fn read_text(alloc: Global, bytes: &[u8]) -> Result<Query, TextFault>
    ensures query { IfOk result (λ query. IsQueryText bytes.now query) }
    ensures faulty { IfErr result (λ fault. fault ≢ TextFault.OutOfMemory → IsRefusedText bytes.now fault) }

    // Nothing else is: no other query, and no other fault.
    ensures only { (query : List StatementTree) → IsQueryText bytes.now query →
        MatchResult result (λ found. found ≡ query) (λ fault. fault ≡ TextFault.OutOfMemory) }
    ensures first { (fault : TextFault) → IsRefusedText bytes.now fault →
        MatchResult result (λ _. ⊥) (λ found. (found ≡ fault) ⊎ (found ≡ TextFault.OutOfMemory)) }
{
    let tokens = keep_tokens(alloc, bytes)?;
    let query = parse(alloc, &tokens)?;
    Ok(query)
}

/// The tokens of a text, without those that no text within the limits can have. Of each of the first 257 statements, the first 257 tokens
/// and its `;` are kept. So a text takes memory for no more than these, however long it is. The first faulty place of the whole text is
/// rejected, as `lex` does it.
pub fn keep_tokens(alloc: Global, bytes: &[u8]) -> Result<Vec<Token>, LexFault>
    ensures kept { IfOk result (λ kept. (tokens : List Token) × AreTokens 0 bytes.now tokens
        × (kinds kept.items ≡ trimmed 257 257 (kinds tokens))) }
    ensures faulty { IfErr result (λ fault. fault ≢ LexFault.OutOfMemory → IsFaultyAt 0 bytes.now fault) }

    // What a reader of tokens may rely on.
    ensures sound { IfOk result (λ kept. All (λ token. IsSound token.kind) kept.items) }

    // Nothing else is: no tokens of a faulty text, no other tokens, and no other fault.
    ensures only { (tokens : List Token) → AreTokens 0 bytes.now tokens →
        MatchResult result (λ kept. kinds kept.items ≡ trimmed 257 257 (kinds tokens)) (λ fault. fault ≡ LexFault.OutOfMemory) }
    ensures first { (first : LexFault) → IsFaultyAt 0 bytes.now first →
        MatchResult result (λ _. ⊥) (λ fault. (fault ≡ first) ⊎ (fault ≡ LexFault.OutOfMemory)) }
{
    trim_tokens(alloc, bytes)
}

// The tokens of a text that are kept, or its first faulty place.
fn trim_tokens(alloc: Global, bytes: &[u8]) -> Result<Vec<Token>, LexFault>
    ensures kept { IfOk result (λ kept. (tokens : List Token) × AreTokens 0 bytes.now tokens
        × (kinds kept.items ≡ trimmed 257 257 (kinds tokens))) }
    ensures faulty { IfErr result (λ fault. fault ≢ LexFault.OutOfMemory → IsFaultyAt 0 bytes.now fault) }
{
    let mut kept = Kept::new(alloc);
    let mut at = 0;
    while let Some(token) = next_token(alloc, bytes, at)? {
        at = token.end as usize;
        kept.add(token)?;
    }
    Ok(kept.tokens)
}
