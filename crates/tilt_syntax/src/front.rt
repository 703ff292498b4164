// What is at the beginning of tokens.
ghost use Rattle.std.specs.Prelude.{◌≡◌, ◌≢◌, ◌<◌, List, ◌∷◌, ℕ, ℤ, pos, ◌≤ℤ◌, length, IsTrue, ◌↔◌, MatchOption, IfSome};
ghost use Rattle.tilt_lexer.specs.declared.token.Tok.{Tok};
ghost use Rattle.tilt_syntax.specs.Query.{kinds, AreSound};

use tilt_lexer::{Key, Mark, Name, Tok, Token};

/// What follows the reserved word, if the tokens begin with it.
pub fn after_key(tokens: &[Token], key: Key) -> Option<&[Token]>
    ensures front { MatchOption result
        ((ts : List Tok) → kinds tokens.now ≢ Tok.Key key ∷ ts)
        (λ rest. kinds tokens.now ≡ Tok.Key key ∷ kinds rest.now) }
    ensures fewer { IfSome result (λ rest. length (kinds rest.now) < length (kinds tokens.now)) }
    ensures sound { AreSound (kinds tokens.now) → IfSome result (λ rest. AreSound (kinds rest.now)) }
{
    match tokens {
        [first, rest @ ..] if is_key(&first.kind, key) => Some(rest),
        _ => None,
    }
}

/// What follows the sign, if the tokens begin with it.
pub fn after_mark(tokens: &[Token], mark: Mark) -> Option<&[Token]>
    ensures front { MatchOption result
        ((ts : List Tok) → kinds tokens.now ≢ Tok.Mark mark ∷ ts)
        (λ rest. kinds tokens.now ≡ Tok.Mark mark ∷ kinds rest.now) }
    ensures fewer { IfSome result (λ rest. length (kinds rest.now) < length (kinds tokens.now)) }
    ensures sound { AreSound (kinds tokens.now) → IfSome result (λ rest. AreSound (kinds rest.now)) }
{
    match tokens {
        [first, rest @ ..] if is_mark(&first.kind, mark) => Some(rest),
        _ => None,
    }
}

/// The number at the beginning, and what follows it.
pub fn first_number(tokens: &[Token]) -> Option<(i64, &[Token])>
    ensures front { MatchOption result
        ((n : ℤ) (ts : List Tok) → kinds tokens.now ≢ Tok.Number n ∷ ts)
        (λ found. kinds tokens.now ≡ Tok.Number found.0 ∷ kinds found.1.now) }
    ensures fewer { IfSome result (λ found. length (kinds found.1.now) < length (kinds tokens.now)) }
    ensures sound { AreSound (kinds tokens.now) → IfSome result (λ found. (pos 0 ≤ℤ found.0) × AreSound (kinds found.1.now)) }
{
    let [first, rest @ ..] = tokens else {
        return None;
    };
    match &first.kind {
        Tok::Number(number) => Some((*number, rest)),
        _ => None,
    }
}

/// The name at the beginning, and what follows it.
pub fn first_name(tokens: &[Token]) -> Option<(&Name, &[Token])>
    ensures front { MatchOption result
        ((x : List ℕ) (ts : List Tok) → kinds tokens.now ≢ Tok.Word x ∷ ts)
        (λ found. kinds tokens.now ≡ Tok.Word found.0.now ∷ kinds found.1.now) }
    ensures fewer { IfSome result (λ found. length (kinds found.1.now) < length (kinds tokens.now)) }
    ensures sound { AreSound (kinds tokens.now) → IfSome result (λ found. AreSound (kinds found.1.now)) }
{
    let [first, rest @ ..] = tokens else {
        return None;
    };
    match &first.kind {
        Tok::Word(name) => Some((name, rest)),
        _ => None,
    }
}

// Whether the token is the reserved word.
fn is_key(token: &Tok, key: Key) -> bool
    ensures { IsTrue result ↔ (token.now ≡ Tok.Key key) }
{
    match token {
        Tok::Key(found) => *found == key,
        _ => false,
    }
}

/// Whether the token is the sign.
pub fn is_mark(token: &Tok, mark: Mark) -> bool
    ensures { IsTrue result ↔ (token.now ≡ Tok.Mark mark) }
{
    match token {
        Tok::Mark(found) => *found == mark,
        _ => false,
    }
}
