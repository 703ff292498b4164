//! The arguments of a command line. `read_words` is given the arguments after the program's name, and returns the command that they are,
//! or that they are none. Its clauses say which, by `IsCommand` of `specs/Command`: arguments are one command at most, and only those
//! that are none are rejected. Which options there are, and which command can have which, is said by two tables: `option_table` and
//! `command_table` for the program, `specs/Tables` for the clauses.
//!
//! A second program reads its arguments by a table of its own: `Arguments::read` takes the table, and `AreArguments` of
//! `specs/Arguments` says what the arguments give by it.
#![tactic(auto)]

mod arguments;
mod bind;
mod command;
mod command_table;
mod cut_bind;
mod fault;
mod number;
mod option_table;
mod reader;
mod setting;
mod upto;
mod value;

pub use arguments::Arguments;
pub use bind::Bind;
pub use command::Command;
pub use cut_bind::CutBind;
pub use fault::WordsFault;
pub use option_table::{OptionRow, Shape};
pub use reader::{is_file, read_words};
pub use upto::Upto;
