//! A live query that is served into a folder, exactly once.
//!
//! What comes in is a query with its core, and the options of its run. What goes out is a machine for `tilt_exactly_once`: the run
//! of `tilt_live_run` with its state. `specs/Committed` says which commits are those of bytes of the query's feed. They have the output
//! for the lines of these bytes, and the state after these lines. Behind the state are the bytes of the line that has begun.
#![tactic(auto)]

mod machine;
mod query;
mod recipe;
mod resuming;
mod tail;

pub use machine::LiveMachine;
pub use recipe::LiveRecipe;
