//! The check of a query file in units, before any data are read.
//!
//! What comes in is a shelf, the name of a file, the scales of its inputs, and what is known of them. What goes out is a text: the scales,
//! the bounds of each definition, and the query over whole numbers. With it comes the definition that can leave 64 bits, if one can.
//!
//! `specs/Check` says when a file is checked, and why it isn't. `specs/BoundText` says what a text says of inputs: `read_bounds` reads it.
//! The clause `safe` of `check_in_units` says what a text without such a definition means: on any rows within the bounds, no operator and
//! no reducer overflows. By the clause of `checked_queries_are_exact`, what it emits is then exactly what the query in units emits.
#![tactic(auto)]

mod bound_text;
mod check;
mod fault;
mod law;

pub use bound_text::read_bounds;
pub use check::{Checked, check_bounds, check_in_units};
pub use fault::CheckFault;
pub use law::checked_queries_are_exact;
