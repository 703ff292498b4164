//! Why a command isn't done, and how that is reported: each fault has a status, with which the program exits, and one line.
//!
//! Each fault of the layers below becomes a `Fault`, which gives its status and its line. The clauses of `Fault::status` and `Fault::put`
//! say that they are the status and the line of `specs/Report`, the one table of them.
#![tactic(auto)]

mod fault;
mod line;
mod refusal;

pub use fault::Fault;
pub use refusal::{Refusal, StatementFault};
