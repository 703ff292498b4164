//! The arguments of the program `tilt-live`, and what they ask for.
//!
//! What comes in is the arguments. What goes out is a command, if they are one: the file of the query, what is asked of its run, and how
//! readings are written. With these come the scales of a query in units, and the files of states or a folder.
//!
//! `specs/Arguments` says which arguments are a command. `specs/LiveOptions` has the table of options, and which of them fit together.
//! `specs/Readings` says what the options of readings, of units and of a check say. The clauses `is` and `only` of `read_command` say that
//! the arguments are that command and no other one. Nothing here reads or writes.
#![tactic(auto)]

mod arguments;
mod asked;
mod live_options;
mod reading_texts;

pub use arguments::{FolderChoice, LiveCommand, Task, read_command};
pub use asked::Asked;
