// The levels of expressions, and the operators between operands.
ghost use Rattle.std.specs.Prelude.{◌≡◌, ◌≢◌, ◌<◌, List, ◌∷◌, length, MatchOption, IfSome};
ghost use Rattle.tilt_base.specs.declared.operator.Op2.{Op2};
ghost use Rattle.tilt_lexer.specs.declared.token.Tok.{Tok};
ghost use Rattle.tilt_syntax.specs.Levels.{operator_of, tighter};
ghost use Rattle.tilt_syntax.specs.Query.{kinds, AreSound};

use tilt_base::Op2;
use tilt_lexer::{Key, Mark, Tok, Token};

// How tightly an expression holds together, from the loosest to the tightest.
#[derive(Clone, Copy, Debug, PartialEq, Eq)]
pub(crate) enum Level {
    Choice,
    When,
    Or,
    And,
    Negation,
    Comparison,
    Sum,
    Product,
    Minus,
    Atom,
}

impl Level {
    // The next tighter level.
    pub(crate) fn tighter(self) -> Level
        ensures { result ≡ tighter self }
    {
        match self {
            Level::Choice => Level::When,
            Level::When => Level::Or,
            Level::Or => Level::And,
            Level::And => Level::Negation,
            Level::Negation => Level::Comparison,
            Level::Comparison => Level::Sum,
            Level::Sum => Level::Product,
            Level::Product => Level::Minus,
            Level::Minus | Level::Atom => Level::Atom,
        }
    }
}

// The operator that is written with the token between its operands, and its level.
fn operator_of(token: &Tok) -> Option<(Level, Op2)>
    ensures { result ≡ operator_of token.now }
{
    match token {
        Tok::Key(key) => word_operator(*key),
        Tok::Mark(mark) => sign_operator(*mark),
        Tok::Word(_) | Tok::Number(_) => None,
    }
}

// The operator that is a reserved word.
fn word_operator(key: Key) -> Option<(Level, Op2)>
    ensures { result ≡ operator_of (Tok.Key key) }
{
    match key {
        Key::When => Some((Level::When, Op2::When)),
        Key::Or => Some((Level::Or, Op2::Or)),
        Key::And => Some((Level::And, Op2::And)),
        _ => None,
    }
}

// The operator that is a sign.
fn sign_operator(mark: Mark) -> Option<(Level, Op2)>
    ensures { result ≡ operator_of (Tok.Mark mark) }
{
    match mark {
        Mark::Equal => Some((Level::Comparison, Op2::Eq)),
        Mark::NotEqual => Some((Level::Comparison, Op2::Ne)),
        Mark::Less => Some((Level::Comparison, Op2::Lt)),
        Mark::AtMost => Some((Level::Comparison, Op2::Le)),
        Mark::Greater => Some((Level::Comparison, Op2::Gt)),
        Mark::AtLeast => Some((Level::Comparison, Op2::Ge)),
        Mark::Plus => Some((Level::Sum, Op2::Add)),
        Mark::Minus => Some((Level::Sum, Op2::Sub)),
        Mark::Star => Some((Level::Product, Op2::Mul)),
        Mark::Slash => Some((Level::Product, Op2::Div)),
        Mark::Percent => Some((Level::Product, Op2::Rem)),
        _ => None,
    }
}

// The operator of that level at the beginning, and what follows its sign.
pub(crate) fn front_operator(level: Level, tokens: &[Token]) -> Option<(Op2, &[Token])>
    ensures front { MatchOption result
        ((t : Tok) (ts : List Tok) (op : Op2) → kinds tokens.now ≡ t ∷ ts → operator_of t ≢ Some (level, op))
        (λ found. (t : Tok) × (kinds tokens.now ≡ t ∷ kinds found.1.now) × (operator_of t ≡ Some (level, found.0))) }
    ensures fewer { IfSome result (λ found. length (kinds found.1.now) < length (kinds tokens.now)) }
    ensures sound { AreSound (kinds tokens.now) → IfSome result (λ found. AreSound (kinds found.1.now)) }
{
    let [first, rest @ ..] = tokens else {
        return None;
    };
    let (found, op) = operator_of(&first.kind)?;
    if found == level {
        Some((op, rest))
    } else {
        None
    }
}
