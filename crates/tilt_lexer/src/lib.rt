//! The tokens of a query's text, and its names.
//!
//! Bytes come in; names, numbers, reserved words and signs (`Mark`) go out, each with its place. The clauses of `lex` say which:
//! the tokens are the longest that start at each place (`tokens`), and no others are (`only`). An error reports the first faulty
//! place, whenever there is one (`faulty`, `first`). `next_token` gives them one at a time. A `Name` is a word, by `specs/Word`;
//! a name that a source may have isn't reserved (`IsName`).
#![tactic(auto)]

mod cursor;
mod fault;
mod front;
mod key;
mod lexer;
mod mark;
mod name;
mod number;
mod token;

pub use cursor::next_token;
pub use fault::LexFault;
pub use key::{Key, reserved};
pub use lexer::lex;
pub use mark::Mark;
pub use name::{Name, is_word};
pub use token::{Tok, Token};
