//! The one call of the program `tilt-live`. What comes in is its arguments, a shelf of files, a port and a sink for reports. What goes out,
//! through the port, is what is final of a query's output while its feed is read. A run can go on from the state that an earlier one saved,
//! and save its own. Or the output goes into a folder, exactly once.
//!
//! With `--check` no feed is read: the query in units is checked, and its bounds are printed, as `specs/Checking` says.
//!
//! With `--keys` each key of the feed has a run of its own, as `specs/ByKeys` says.
//!
//! A feed has rows, or readings if there is a column of times. `specs/Asked` says which run the arguments ask for.
//!
//! `specs/Lived` says what the call does: the clause `is` of `live` has a case for each end. If the query was taken, `HasServed` says what
//! was written. At each moment at which more was read it is exactly the output for the lines that had come, handed on. If a folder was
//! chosen, `specs/InFolder` says what each crash leaves of it.
#![tactic(auto)]

mod begin;
mod by_keys;
mod checking;
mod command;
mod counting;
mod ended_run;
mod failure;
mod folder_end;
mod folder_fault;
mod halted;
mod in_folder;
mod job;
mod law;
mod loaded;
mod named_line;
mod run_options;
mod serve;
mod state_file;
mod unbegun;
mod zoned;

pub use command::live;
pub use in_folder::Lived;
pub use law::runs_are_joined;
