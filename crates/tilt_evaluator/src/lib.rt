//! What a query gives, tick by tick: the definitions of its meaning, run by themselves.
//!
//! What comes in is a core and the rows of its inputs; what goes out is snapshots. `evaluate_query` gives what the query gives, by
//! its one clause, and `evaluate` the snapshots of any source on a stretch of time, by its one. Both are slow, on purpose. No crate
//! of the program depends on this one: it is for worked queries in tests.
#![tactic(auto)]

mod cells;
mod evaluator;
mod marks;
mod rows;
mod source;
mod tick;

pub use evaluator::{evaluate, evaluate_query};
pub use source::Source;
