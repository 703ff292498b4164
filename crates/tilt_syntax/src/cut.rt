// Tokens are cut into statements.
ghost use Rattle.std.specs.Prelude.{◌≡◌, ◌<◌, ◌∷◌, length};
ghost use Rattle.tilt_syntax.specs.Cut.{first_length};
ghost use Rattle.tilt_syntax.specs.Query.{kinds, AreSound, statements};

use crate::front::is_mark;
use tilt_lexer::{Mark, Token};

/// The tokens of the first statement, with its `;` if it has one, and the tokens after it. There is at least one token.
pub fn first_statement(tokens: &[Token]) -> (&[Token], &[Token])
    requires { 0 < length tokens.now }
    ensures cut { statements (kinds tokens.now) ≡ kinds result.0.now ∷ statements (kinds result.1.now) }
    ensures fewer { length result.1.now < length tokens.now }
    ensures first_sound { AreSound (kinds tokens.now) → AreSound (kinds result.0.now) }
    ensures sound { AreSound (kinds tokens.now) → AreSound (kinds result.1.now) }
{
    let length = first_length(tokens);
    tokens.split_at(length)
}

// How many tokens the first statement has.
fn first_length(tokens: &[Token]) -> usize
    ensures { result ≡ first_length (kinds tokens.now) }
{
    for (at, token) in tokens.iter().enumerate() {
        if is_mark(&token.kind, Mark::Semicolon) {
            return at + 1;
        }
    }
    tokens.len()
}

// How many statements the tokens are.
pub(crate) fn count_statements(tokens: &[Token]) -> usize
    ensures { result ≡ length (statements (kinds tokens.now)) }
{
    let mut count = 0;
    let mut rest = tokens;
    while !rest.is_empty() {
        let (_, behind) = first_statement(rest);
        rest = behind;
        count += 1;
    }
    count
}
