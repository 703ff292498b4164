// What comes after the expression in a statement.
ghost use Rattle.std.specs.Prelude.{◌≡◌, ◌↔◌, [], ◌∷◌, IsTrue};
ghost use Rattle.tilt_lexer.specs.declared.token.Tok.{Tok};
ghost use Rattle.tilt_syntax.specs.Query.{kinds, AreSound};
ghost use Rattle.tilt_syntax.specs.Rest.{FindsPart};
ghost use Rattle.tilt_syntax.specs.Statements.{bound_plan, domain_plan, from_plan, grid_plan, span_plan};

use crate::every::Every;
use crate::front::{after_key, after_mark, first_number};
use tilt_base::Span;
use tilt_lexer::{Key, Mark, Token};

// The bound at the beginning, and what follows it.
fn bound(tokens: &[Token]) -> Option<(i64, &[Token])>
    requires { AreSound (kinds tokens.now) }
    ensures { FindsPart (bound_plan (kinds tokens.now)) (kinds tokens.now) result }
{
    let Some(behind) = after_mark(tokens, Mark::Minus) else {
        return first_number(tokens);
    };
    let (number, rest) = first_number(behind)?;
    Some((-number, rest))
}

// The span after `over`, and what follows it.
pub(crate) fn span(tokens: &[Token]) -> Option<(Span, &[Token])>
    requires { AreSound (kinds tokens.now) }
    ensures { FindsPart (span_plan (kinds tokens.now)) (kinds tokens.now) result }
{
    let opened = after_mark(tokens, Mark::OpenParen)?;
    let (start, left) = bound(opened)?;
    let between = after_mark(left, Mark::Comma)?;
    let (end, right) = bound(between)?;
    let rest = after_mark(right, Mark::CloseBracket)?;
    Some((Span { start, end }, rest))
}

// The span at the beginning, if `over` is there, and what follows it.
pub(crate) fn domain(tokens: &[Token]) -> Option<(Option<Span>, &[Token])>
    requires { AreSound (kinds tokens.now) }
    ensures { FindsPart (domain_plan (kinds tokens.now)) (kinds tokens.now) result }
{
    let Some(behind) = after_key(tokens, Key::Over) else {
        return Some((None, tokens));
    };
    let (over, rest) = span(behind)?;
    Some((Some(over), rest))
}

// The offset with which the tokens begin, 0 if they don't begin with `from`, and what follows it.
fn offset(tokens: &[Token]) -> Option<(i64, &[Token])>
    requires { AreSound (kinds tokens.now) }
    ensures { FindsPart (from_plan (kinds tokens.now)) (kinds tokens.now) result }
{
    let Some(behind) = after_key(tokens, Key::From) else {
        return Some((0, tokens));
    };
    first_number(behind)
}

// The grid with which the tokens begin, if they begin with `every`, and what follows it.
pub(crate) fn grid(tokens: &[Token]) -> Option<(Option<Every>, &[Token])>
    requires { AreSound (kinds tokens.now) }
    ensures { FindsPart (grid_plan (kinds tokens.now)) (kinds tokens.now) result }
{
    let Some(behind) = after_key(tokens, Key::Every) else {
        return Some((None, tokens));
    };
    let (period, left) = first_number(behind)?;
    let (offset, rest) = offset(left)?;
    Some((Some(Every { period, offset }), rest))
}

/// Whether the tokens are the `;` alone.
pub fn is_end(tokens: &[Token]) -> bool
    ensures { IsTrue result ↔ (kinds tokens.now ≡ Tok.Mark Mark.Semicolon ∷ []) }
{
    match after_mark(tokens, Mark::Semicolon) {
        Some(rest) => rest.is_empty(),
        None => false,
    }
}
