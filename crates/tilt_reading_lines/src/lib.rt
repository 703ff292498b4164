//! Lines of readings: from the content of a line of a CSV to readings of a query's inputs.
//!
//! What comes in is the bytes of a line. What goes out is the readings that it says, each with the tick and the value of an input, or the
//! first cause why it says nothing. The clause `said` of `ReadingReader::read_line` says so over the definition `line_said` in
//! `specs/Lines`. The first line is a header. The clause of `ReadingReader::read_header` says which columns it has, over `header_said` in
//! `specs/Header`.
//!
//! A line is one record. Its columns are in one of two arrangements:
//!
//! - `time,name,value`: a reading of the input with the name; without a name and a value, all inputs are known up to the time
//! - `time,INPUT,INPUT`: a reading of each input, whose title is its name; other columns are skipped
//!
//! White space around a field is skipped. An empty field and each null text mean that there is no value. A decimal becomes a whole number
//! by the scale of its input, and nothing is rounded. A moment becomes the tick that it lies in: `ticks_hold_their_moments` says that
//! `tick_at` is that tick.
#![tactic(auto)]

mod columns;
mod fault;
mod fields;
mod header;
mod law;
mod line_fields;
mod plain;
mod reader;
mod record;
mod rules;
mod three;
mod tick;
mod value;

pub use columns::{Columns, Titles, ValueColumns};
pub use fault::{Column, HeaderFault, LineFault, ReadHeaderFault, ReadLineFault};
pub use law::ticks_hold_their_moments;
pub use reader::ReadingReader;
pub use rules::{InputReading, LocalRules, Moments, Rules, Source};
