//! Rows as people read them: the times of snapshots as dates, and their values as decimals.
//!
//! What comes in is a snapshot and a style; what goes out is its line. A time is a tick, or the date and the time of day at the end of that
//! tick by a clock. A value is a whole number, divided by a power of ten.
//!
//! The clause of `write_row` is an equation with `row_line` in `specs/Lines`, and the clause of `write_begun` one with `begun_line`.
//! `lines_in` has the lines of a list of snapshots. `specs/Dates` says which date a moment has. In the plain style these are the lines of
//! `tilt_stream`, by a lemma of `proofs/Plain`.
#![tactic(auto)]

mod decimals;
mod piece;
mod row;
mod style;
mod time;
mod times;

pub use decimals::second_decimals;
pub use row::{write_begun, write_row};
pub use style::RowStyle;
pub use times::Times;
