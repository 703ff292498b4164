//! What readings mean: from the readings of an input to the updates of its feed.
//!
//! What comes in is turns, one after another: a reading, which is a tick with a value or without one, or "known up to" a tick. What goes
//! out is the updates of the feed of this input, or why a turn isn't taken. People differ in what a reading says beyond its own moment, so
//! the options name it:
//!
//! - `Convention::Hold`: a reading's value holds from its tick until the next reading, and for `max_age` ticks at most. A reading without a
//!   value ends the one before it.
//! - `Convention::Event`: it holds on its own tick alone.
//! - `Ties`: of several readings in one tick, the first or the last counts, later ones are rejected, or each moves to a tick of its own.
//!
//! `specs/Rows` says which rows a whole list of readings means. It says which of them count (`counted`), and what the row of each is. The
//! row goes from the tick before its own to where the next one starts, to the cut, or to where it is too old (`rows_of`). `specs/Cells`
//! says the same without rows: what holds at a tick is the value of the last reading up to it. `specs/Steps` says what one turn does:
//! `turn_fault` says why it isn't taken, and `taken` says what it hands on.
//!
//! The clauses of `Converter::take` say that it is this step, and that nothing changes if a turn isn't taken or if memory runs out. The
//! functions of `law` connect the two, for every list of turns. The rows of the feed that takes the updates are those that the readings
//! mean, up to the feed's watermark. Every update is allowed, and what holds at a tick is what the last reading up to it says.
//!
//! `Converter::kept` has all that it keeps, as plain data, and `Converter::resume` makes a converter that keeps it. By the clauses of both,
//! a converter goes on in a new process as the one that was left would have done.
//!
//! A turn is late if it starts before the one before it: a reading starts at the tick before its own, where its row does. All of this
//! depends on the turns alone, and on no clock. Nothing here reads or writes.
#![tactic(auto)]

mod converter;
mod fault;
mod fault_of;
mod handing;
mod kept;
mod law;
mod moving;
mod options;
mod turn;

pub use converter::Converter;
pub use fault::{TakeError, TurnFault};
pub use kept::{KeptConverter, fits};
pub use law::{readings_hold, rows_are_those_of_readings, turns_are_kept};
pub use options::{Convention, Options, Ties};
pub use turn::{Reading, Turn};
