//! The text of a live feed: from bytes to the events of a feed, line by line.
//!
//! What comes in is bytes and whole lines; what goes out is what a line adds to the feed, or why it is bad, and the line that reports it.
//! `specs/Split` says which lines a text has, and `specs/Said` what they say. There `events_of inputs lines` is the one definition of the
//! events that lines make, and `line_fault` says why a line is bad. The clause `content` of `read_content` is over these.
#![tactic(auto)]

mod bad_line;
mod content;
mod pending;
mod report;

pub use bad_line::{BadLine, ReadContentFault};
pub use content::read_content;
pub use pending::{LINE, append_cut};
pub use report::put_report;
