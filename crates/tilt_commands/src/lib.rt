//! The commands over files that are read once, and one that makes its own rows. The input is a shelf, the name of a file and
//! binds; the output is the outcome of the command, or the first fault.
//!
//! Each command is a row of `specs/Table`: what its file may say, and its outcome on the rows of its inputs. The clause `Does` of its
//! function, or `DoesLast`, says that it does that, that each fault has its cause, and that each file was read once. `IsLawful` of its
//! row, in `proofs/`, says that arguments and files have one outcome, and always one.
//!
//! `start_session` and `resume_session` also save a checkpoint under a name. Their clauses `begun` and `beyond` are stated by
//! `specs/HandsOn`: sessions together print what one session prints on all rows, and leave what it leaves.
#![tactic(auto)]

mod compile_command;
mod corrected;
mod exec_command;
mod explain_command;
mod fix_command;
mod flow_command;
mod loaded;
mod parts_command;
mod pipe_command;
mod resume_command;
mod row_bounds;
mod run_command;
mod saved_cut;
mod start_command;
mod try_command;
mod watch_command;

pub use compile_command::compile;
pub use exec_command::exec;
pub use explain_command::explain;
pub use fix_command::fix;
pub use flow_command::flow;
pub use parts_command::{Division, parts};
pub use pipe_command::pipe;
pub use resume_command::resume_session;
pub use run_command::{Manner, run};
pub use saved_cut::SavedCut;
pub use start_command::start_session;
pub use try_command::try_;
pub use watch_command::watch;
