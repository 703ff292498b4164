//! What is printed, and how it is written. In comes what a command results in: a text, or a pipe that gives out the snapshots of one, and
//! bytes that are saved after it. Out go writes to a sink, what the watchers are shown, or why not all was written.
//!
//! The clauses that matter are on `Printed::put`. `prints` says that exactly the text was written, or a prefix of it if writing failed.
//! `seen` says that the watchers saw exactly the rows whose lines were written.
#![tactic(auto)]

mod answered;
mod printed;
mod reached;
mod save;
mod streamed;
mod unput;
mod watched;
mod whole_text;

pub use answered::Answered;
pub use printed::Printed;
pub use save::Save;
pub use unput::Unput;
pub use whole_text::WholeText;
