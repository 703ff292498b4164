//! Texts as bytes: pieces and numbers appended one after another, and words cut off and read as numbers.
//!
//! What comes in is bytes and numbers; what goes out is longer texts, words and numbers. The clauses of `put` and `put_number` say
//! that the text is the old one with the piece after it, or the number in shortest decimal. The clauses of `append` and
//! `append_number` say the same of a room of fixed size, and these take no memory. The clause of `until` says that it gives the
//! word before the first mark and the bytes after it, as `specs/Cut` defines them. The clause of `shortest` says that it gives the
//! number whose shortest decimal the word is, and no other.
#![tactic(auto)]

mod cut;
mod puts;
mod room;
mod spelled;

pub use cut::until;
pub use puts::{put, put_number};
pub use room::{append, append_number};
pub use spelled::shortest;
