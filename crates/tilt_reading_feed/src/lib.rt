//! The feed of inputs whose data are readings: from what the lines of a logger say to the events of the feed.
//!
//! What comes in is what lines say, one after another, as `tilt_reading_lines` reads them: readings of inputs, or a tick up to which all
//! inputs are known. What goes out is the events of the feed, or why a line isn't taken. Each input has a converter of `tilt_conventions`,
//! by its own convention and rule for ties. `specs/Steps` defines it: `line_fault` is the first cause why a line isn't taken, and
//! `line_taken` says what a line does that is.
//!
//! The clauses of `ReadingFeed::take` say that it is this definition. A line is taken whole or not at all: if one of its readings has a
//! fault, or if memory runs out, nothing changes.
//!
//! The functions of `law` say what this means, for every list of lines. Every event is allowed after those before it. The rows of an input
//! are those that its readings mean, in the lines that were taken, up to its watermark. When nothing more comes, its closed rows are those
//! of all these readings.
//!
//! `ReadingFeed::kept` has all that it keeps, as plain data, and `ReadingFeed::resume` makes a feed that keeps it. By the clauses of both,
//! a feed goes on in a new process as the one that was left would have done.
//!
//! All of this depends on the lines alone, and on no clock. Nothing here reads or writes.
#![tactic(auto)]

mod fault;
mod fault_of;
mod kept;
mod law;
mod reading_feed;
mod room;
mod turning;

pub use fault::{FeedFault, TakeError};
pub use kept::KeptReadings;
pub use law::{lines_are_turns, rows_are_those_of_lines};
pub use reading_feed::ReadingFeed;
