//! What the tests of several crates are made with: texts, queries and cores from their text, and series from pieces.
//!
//! What comes in is what the table of a test has; what goes out is what the tested calls take, or a `Fail`, which ends the
//! test. Only crates of tests depend on it.
#![tactic(auto)]

mod pieces;
mod queries;
mod texts;

pub use pieces::{Piece, inputs_of, piece_of, pieces_of, rows_of};
pub use queries::{core_of, query_of};
pub use texts::{name_text, repeated};
