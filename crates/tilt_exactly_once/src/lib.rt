//! A feed that is served into a folder exactly once, whatever machine makes the output.
//!
//! What comes in is an open ledger, a machine that turns the bytes of a feed into output, and a port from which the feed is read. What goes
//! out is a folder: its output with the machine's state, committed together. `specs/Committed` says what a folder holds of a feed. The
//! clause `served` of `Keeper::serve` is the theorem: whatever kills the program at whatever moment, the folder holds the commit of a front
//! of what was read. `specs/Serving` has its parts.
#![tactic(auto)]

mod failure;
mod feed;
mod framed_machine;
mod halt;
mod keeper;
mod last;
mod law;
mod machine;
mod passing;
mod plan;
mod refusal;
mod resuming;
mod start;

pub use failure::Failure;
pub use feed::{Served, count_committed, serve_feed};
pub use framed_machine::FramedMachine;
pub use halt::{Halt, Stop};
pub use keeper::{Keeper, Progress};
pub use law::{changes_are_noticed, passing_leaves_the_rest, programs_are_runs, runs_hold_a_front};
pub use machine::{Machine, Resumed, Started};
pub use plan::Plan;
pub use refusal::{Refusal, StartError};
pub use start::open;
