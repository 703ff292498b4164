//! Single readings: what a logger writes, as the whole numbers that a query computes with, and back.
//!
//! What comes in is a text: a decimal such as `20.75`, a number of seconds since 1970, or a date with a time and an offset. What goes out
//! is a whole number, a moment in nanoseconds since 1970, or the first cause why there is none. A date without an offset is a local time:
//! seconds that clocks show. Nothing is rounded. Back, whole numbers and moments come in, and decimals and dates go out; and the tick that
//! a moment lies in.
//!
//! The clause of each reader is an equation with one definition. `number_at` in `specs/Decimal` is the number that a decimal is at a scale,
//! and `date_read` in `specs/Date` is the moment that a date is. The clause of `tick_of` says that the moment lies in the tick, as
//! `specs/Tick` defines it. The functions of `law` do nothing; their clauses are laws of these definitions.
#![tactic(auto)]

mod date;
mod date_text;
mod decimal;
mod digits;
mod epoch;
mod fault;
mod law;
mod local_date;
mod tick;
mod written;

pub use date::{moment_of, read_date};
pub use date_text::write_date;
pub use decimal::read_decimal;
pub use epoch::{Unit, read_epoch};
pub use fault::{DateFault, DecimalFault};
pub use law::{
    days_follow_one_another, decimals_are_exact, ticks_are_apart, written_decimals_are_read_back,
};
pub use local_date::{LocalDate, read_local_date};
pub use tick::{Clock, Closed, FARTHEST, moment_at, tick_of};
pub use written::write_decimal;
