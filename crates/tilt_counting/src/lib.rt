//! A run of a feed beside which another run takes the same feed, and its rows are counted.
//!
//! What comes in is bytes of a feed. What goes out is what the run makes of them. The rows of the other run aren't written. At the end of
//! the feed a line reports how many there are, if there are some. If the other run watches for results that leave 64 bits, these rows are
//! the stretches of time at which a result did.
//!
//! `specs/Counted` says what a `CountingRun` makes of its feed, by what the two runs make of it.
#![tactic(auto)]

mod count;
mod counting_run;

pub use counting_run::CountingRun;
