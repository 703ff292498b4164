//! The program's one call. It is given the arguments, a shelf of files, two sinks and watchers. It gives
//! a text, or one line that says why not, and a status.
//!
//! What each command does is a row of the table of `tilt_commands`, and `specs/Outcome` says over the rows what the outcome of arguments
//! and files is. What `tilt` does is one record, in `specs/Promise`. `done` says that the bytes printed and saved are the outcome, and
//! `continued` that sessions go on from one another. `reported` says that every other status has its cause. `complete`,
//! `complete_refusal` and `faultless` say that the call gives this outcome, and `seen` that the watchers were shown what was printed.
//! `outcome_is_one` has the law that there always is one outcome. `sessions_are_one_run` has the law of sessions: the texts of calls that
//! go on from one another, joined, are the text of one run.
#![tactic(auto)]

mod answer;
mod command;
mod law;

pub use command::tilt;
pub use law::{outcome_is_one, sessions_are_one_run};
