// Parts of a step's tokens.
ghost use Rattle.std.specs.Prelude.{◌≡◌, ◌≢◌, ◌+◌, ◌<◌, List, [], ◌∷◌, ◌++◌, ℤ, length, IfSome, MatchOption};
ghost use Rattle.tilt_base.specs.declared.reducer.Reducer.{Reducer};
ghost use Rattle.tilt_base.specs.declared.span.Span.{Span};
ghost use Rattle.tilt_lexer.specs.declared.token.Tok.{Tok};
ghost use Rattle.tilt_operators.specs.Parts.{HasBound, IsInside};
ghost use Rattle.tilt_operators.specs.Steps.{is_kept_back, is_of_numbers};
ghost use Rattle.tilt_syntax.specs.Grammar.{IsBound};
ghost use Rattle.tilt_syntax.specs.Query.{kinds, AreSound};

use tilt_base::{Reducer, Span};
use tilt_lexer::{Key, Mark, Name, Tok, Token};
use tilt_syntax::{after_mark, first_number, is_end, is_mark};

// What is before the `;`, if the tokens end with it.
pub(crate) fn before_end(tokens: &[Token]) -> Option<&[Token]>
    ensures ended { MatchOption result
        ((ts : List Tok) → kinds tokens.now ≢ ts ++ Tok.Mark Mark.Semicolon ∷ [])
        (λ inside. kinds tokens.now ≡ kinds inside.now ++ Tok.Mark Mark.Semicolon ∷ []) }
    ensures fewer { IfSome result (λ inside. length (kinds inside.now) < length (kinds tokens.now)) }
    ensures sound { AreSound (kinds tokens.now) → IfSome result (λ inside. AreSound (kinds inside.now)) }
{
    match tokens {
        [inside @ .., last] if is_mark(&last.kind, Mark::Semicolon) => Some(inside),
        _ => None,
    }
}

// The bound with which the tokens begin, and what follows it.
pub(crate) fn front_bound(tokens: &[Token]) -> Option<(i64, &[Token])>
    requires { AreSound (kinds tokens.now) }
    ensures front { MatchOption result
        ((n : ℤ) (rest : List Tok) → ¬ (HasBound (kinds tokens.now) n rest))
        (λ found. HasBound (kinds tokens.now) found.0 (kinds found.1.now)) }
    ensures sound { IfSome result (λ found. AreSound (kinds found.1.now)) }
{
    if let Some(behind) = after_mark(tokens, Mark::Minus) {
        let (number, rest) = first_number(behind)?;
        return Some((-number, rest));
    }
    let (number, rest) = first_number(tokens)?;
    Some((number, rest))
}

// The bound that exactly the tokens are.
pub(crate) fn whole_bound(tokens: &[Token]) -> Option<i64>
    requires { AreSound (kinds tokens.now) }
    ensures { MatchOption result
        ((n : ℤ) → ¬ (IsBound (kinds tokens.now) n))
        (λ n. IsBound (kinds tokens.now) n) }
{
    let (number, rest) = front_bound(tokens)?;
    if rest.is_empty() { Some(number) } else { None }
}

// The span that the tokens are, which follows `over`, and the `;`.
pub(crate) fn inside_span(tokens: &[Token]) -> Option<Span>
    requires { AreSound (kinds tokens.now) }
    ensures { MatchOption result
        ((span : Span) → ¬ (IsInside (kinds tokens.now) span))
        (λ span. IsInside (kinds tokens.now) span) }
{
    let opened = after_mark(tokens, Mark::OpenParen)?;
    let (start, left) = front_bound(opened)?;
    let between = after_mark(left, Mark::Comma)?;
    let (end, right) = front_bound(between)?;
    let rest = after_mark(right, Mark::CloseBracket)?;
    if is_end(rest) {
        Some(Span { start, end })
    } else {
        None
    }
}

// The reducer with which the tokens begin, and what follows it.
pub(crate) fn front_reducer(tokens: &[Token]) -> Option<(Reducer, &[Token])>
    ensures front { MatchOption result
        ((r : Reducer) (ts : List Tok) → kinds tokens.now ≢ Tok.Key (Key.Reducer r) ∷ ts)
        (λ found. kinds tokens.now ≡ Tok.Key (Key.Reducer found.0) ∷ kinds found.1.now) }
    ensures sound { AreSound (kinds tokens.now) → IfSome result (λ found. AreSound (kinds found.1.now)) }
{
    let [first, rest @ ..] = tokens else {
        return None;
    };
    match &first.kind {
        Tok::Key(Key::Reducer(reducer)) => Some((*reducer, rest)),
        _ => None,
    }
}

// Whether a window may have the reducer: `any` and `all` are of truth values.
pub(crate) fn is_of_numbers(reducer: Reducer) -> bool
    ensures { result ≡ is_of_numbers reducer }
{
    match reducer {
        Reducer::Any | Reducer::All => false,
        _ => true,
    }
}

// Whether the name begins with `_`, as those of definitions do that a pipeline is made into.
pub(crate) fn is_kept_back(name: &Name) -> bool
    ensures { result ≡ is_kept_back name.now }
{
    match name.bytes() {
        [first, ..] => *first == b'_',
        [] => false,
    }
}
