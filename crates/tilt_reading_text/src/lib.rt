//! The text of a feed of readings: from the lines of a logger's CSV to the events of a feed, line by line.
//!
//! What comes in is whole lines; what goes out is the events that a line hands on, or why it is bad, and the line that reports it. The
//! first line that isn't blank is the header. It says which columns the lines after it have.
//!
//! `specs/Said` says what lines do. There `events_of form options lines` is the one definition of the events that lines make, and
//! `line_fault` says why a line is bad. The clauses of `ReadingText::take` say that it is the step `line_step`. A line is taken whole or
//! not at all, and nothing changes if it is bad or if memory runs out. The clauses of the function of `law` say that such steps, one after
//! another, are that definition.
//!
//! A bad line is skipped, except in place of the header: a feed without its header can't be read, so it ends there. `ends` says so, and the
//! caller of `take` stops then.
//!
//! `ReadingText::kept` has all that it keeps, as plain data, and `ReadingText::resume` makes a text that keeps it. Nothing here reads or
//! writes.
#![tactic(auto)]

mod bad_reading_line;
mod blank;
mod form;
mod kept;
mod law;
mod reading_text;
mod report;
mod taker;

pub use bad_reading_line::{BadReadingLine, TakeLineError};
pub use form::ReadingForm;
pub use kept::KeptText;
pub use law::steps_are_events;
pub use reading_text::ReadingText;
pub use report::put_report;
