//! The watermarks that people need, between the lines of a live feed and its events.
//!
//! What comes in is what lines say, one after another, as `tilt_feed_line` reads them; what goes out is the events of the feed, or why a
//! line isn't taken. `specs/Steps` defines it: `line_fault` says why a line isn't taken, and `taken` says what a line does that is. Without
//! options that is the basic rule. An update is the event of its input, and "known up to" for all inputs is "known up to" for each input
//! whose watermark is below it. With options, `M` is the largest watermark that lines have given to any input:
//!
//! - `lateness N`: lines may come out of order. Each input holds its rows and values, in order of their starts (`specs/Held`). A line that
//!   ends at `e` gives its input the watermark `e - N`; then the input hands on what it holds below that. A line that starts below its
//!   input's watermark is late, and one that overlaps what its input holds isn't taken.
//! - `idle N`: after each line, each input becomes known up to `M - N` at least. So an input that is silent, or far behind, holds nothing
//!   back for longer than that. Its own lines are late then if they start below `M - N`.
//! - `ahead N`: a line that starts above the largest end that lines have given by more than `N` isn't taken. So one wrong clock doesn't
//!   make all lines after it late. The first line may start anywhere.
//!
//! The clauses of `Watermarks::take` say that it is this definition, and that nothing changes if a line isn't taken or if memory is
//! refused. The functions of `law` have the laws of the definition as clauses. Each event that is handed on is allowed after those before
//! it, so `tilt_feed` and `tilt_live` take every one of them. No watermark falls, and no input stays farther behind than `idle` allows.
//! Under lateness the rows and values of an input come out in order of their starts, and none is lost.
//!
//! `Watermarks::kept` has all that they keep, as plain data, and `Watermarks::resume` makes watermarks that keep it. By the clauses of
//! both, watermarks go on in a new process as those that were left would have done.
//!
//! All of this depends on the lines alone, and on no clock: the same lines give the same events again. Nothing here reads or writes.
#![tactic(auto)]

mod fault;
mod fault_of;
mod following;
mod kept;
mod lane;
mod lanes;
mod law;
mod less;
mod options;
mod updates;
mod watermarks;

pub use fault::{TakeError, TakeFault};
pub use kept::{KeptInput, KeptState, fits};
pub use law::{basic_rule_holds, events_are_allowed, lines_are_sorted, watermarks_rise};
pub use options::Options;
pub use watermarks::Watermarks;
