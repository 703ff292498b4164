//! An output file and a state beside it, exactly once. Whatever kills the program at whatever moment, the output is cut back to
//! exactly what belongs to the last committed state when the folder is opened again.
//!
//! What comes in is a `Folder`, the bytes to append to its output, and states to commit. `Folders` give the folder with a name to one
//! program at a time. `Ledger::open` returns the last committed state and cuts the output to it. `append` appends to the output. `commit`
//! makes all of the output so far and a new state the last commit. `specs/Kept` says what a crash can leave, and `specs/Commit` what a
//! folder holds as committed. The clauses `any_moment` say that a crash at any moment of a call leaves the commit from before the call, or
//! the new one.
#![tactic(auto)]

mod change;
mod contents;
mod disk_folder;
mod disk_folders;
mod enter_error;
mod folder;
mod folder_error;
mod folders;
mod law;
mod ledger;
mod mark;
mod mem_folder;
mod mem_folders;
mod open_error;
mod opening;
mod seal;
mod tear;

pub use disk_folder::DiskFolder;
pub use disk_folders::DiskFolders;
pub use enter_error::EnterError;
pub use folder::Folder;
pub use folder_error::FolderError;
pub use folders::Folders;
pub use law::{exactly_once, spoiled_states_are_rejected};
pub use ledger::{Ledger, Opened};
pub use mark::{read_counted, spell_counted};
pub use mem_folder::MemFolder;
pub use mem_folders::MemFolders;
pub use open_error::OpenError;
pub use tear::Tear;
