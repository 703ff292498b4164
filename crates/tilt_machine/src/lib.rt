//! The machine: it runs any loop code.
//!
//! What comes in is a code and the rows of its inputs; what goes out is the list of its last loop. The clause of `run_code`
//! says that this list is the run of the code, as `specs/Run` of `tilt_code` defines it, and that the only error is out of memory.
//!
//! Every loop makes its snapshots turn by turn, as `tilt_turn` makes them over the inputs' rows and the lists of earlier loops.
//! Each piece of a buffer comes into a window once and goes out once, and ticks are never counted.
#![tactic(auto)]

mod made_so_far;
mod run;
mod turns;

pub use run::run_code;
