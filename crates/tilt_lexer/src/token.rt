use crate::key::Key;
use crate::mark::Mark;
use crate::name::Name;

/// A token, and where its text is.
#[derive(Debug, Drop)]
pub struct Token {
    /// What the token is.
    pub kind: Tok,
    /// The place of the text's first byte, counted from 0.
    pub start: u64,
    /// The place after the text's last byte.
    pub end: u64,
}

/// What a token is.
#[derive(Debug, Drop)]
pub enum Tok {
    /// A word that isn't reserved.
    Word(Name),
    /// A number, from 0 to 9223372036854775807.
    Number(i64),
    /// A reserved word.
    Key(Key),
    /// A sign.
    Mark(Mark),
}
