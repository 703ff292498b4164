// The reserved words.
ghost use Rattle.std.specs.Prelude.{◌≡◌, ◌≢◌, ◌↔◌, IsTrue, MatchOption};
ghost use Rattle.tilt_base.specs.Reduce.{reducer_word};
ghost use Rattle.tilt_base.specs.declared.reducer.Reducer.{Reducer};
ghost use Rattle.tilt_lexer.specs.declared.key.Key.{Key};
ghost use Rattle.tilt_lexer.specs.Word.{key_text, IsReserved};

use tilt_base::Reducer;

/// A reserved word of a query.
#[derive(Clone, Copy, Debug, PartialEq, Eq)]
pub enum Key {
    /// `input`
    Input,
    /// `let`
    Let,
    /// `emit`
    Emit,
    /// `over`
    Over,
    /// `every`
    Every,
    /// `from`
    From,
    /// `if`
    If,
    /// `then`
    Then,
    /// `else`
    Else,
    /// `when`
    When,
    /// `or`
    Or,
    /// `and`
    And,
    /// `not`
    Not,
    /// `true`
    TrueWord,
    /// `false`
    FalseWord,
    /// `isnull`
    IsNull,
    /// `ifnull`
    IfNull,
    /// `t`
    Time,
    /// The word of a reducer: `sum`, `avg` and the like.
    Reducer(Reducer),
}

// The reserved word with this text, or `None` if there is none.
#[tactic(auto, using(tilt_base::proofs::Reducers::reducer_found, tilt_base::proofs::Reducers::no_reducer_found))]
pub(crate) fn find_key(bytes: &[u8]) -> Option<Key>
    ensures { MatchOption result
        ((k : Key) → key_text k ≢ bytes.now)
        (λ k. key_text k ≡ bytes.now) }
{
    match Reducer::read(bytes) {
        Some(reducer) => Some(Key::Reducer(reducer)),
        None => find_plain_key(bytes),
    }
}

// The same, of bytes that aren't the word of a reducer.
fn find_plain_key(bytes: &[u8]) -> Option<Key>
    requires { (r : Reducer) → reducer_word r ≢ bytes.now }
    ensures { MatchOption result
        ((k : Key) → key_text k ≢ bytes.now)
        (λ k. key_text k ≡ bytes.now) }
{
    match bytes {
        b"input" => Some(Key::Input),
        b"let" => Some(Key::Let),
        b"emit" => Some(Key::Emit),
        b"over" => Some(Key::Over),
        b"every" => Some(Key::Every),
        b"from" => Some(Key::From),
        b"if" => Some(Key::If),
        b"then" => Some(Key::Then),
        b"else" => Some(Key::Else),
        b"when" => Some(Key::When),
        b"or" => Some(Key::Or),
        b"and" => Some(Key::And),
        b"not" => Some(Key::Not),
        b"true" => Some(Key::TrueWord),
        b"false" => Some(Key::FalseWord),
        b"isnull" => Some(Key::IsNull),
        b"ifnull" => Some(Key::IfNull),
        b"t" => Some(Key::Time),
        _ => None,
    }
}

/// Whether the bytes are a reserved word.
pub fn reserved(bytes: &[u8]) -> bool
    ensures { IsTrue result ↔ IsReserved bytes.now }
{
    find_key(bytes).is_some()
}
