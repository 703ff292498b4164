//! Loop code: what a query is compiled to, and its listing.
//!
//! A code has inputs and loops. Each loop fills one buffer of snapshots from the buffers before it: its body is a block of
//! instructions, which are computed once for each snapshot. A `Code` keeps what `specs/Grammar` and `specs/References` ask.
//!
//! What comes in is codes and bytes; what goes out is listings, and codes again. The clause of `list` says that it gives the text of
//! `specs/Listing`. The clauses of `read_code` say that it gives the code whose listing the bytes are (`code`, `only`), or the first fault
//! by `specs/Fault` (`bad_line`, `bad_reference`). It gives nothing else, unless it runs out of memory (`first_line`, `first_reference`).
//! `specs/Turn` and `specs/Run` define what a code gives. The clauses of `loops_are_streams` say that it is the snapshots of streams, as
//! `specs/Meaning` defines them. The clauses of `turns_end_by_marks` say what a turn is without counting ticks.
#![tactic(auto)]

mod code;
mod fault;
mod form;
mod inputs;
mod instr;
mod law;
mod line;
mod listing;
mod loops;
mod partial;
mod place;
mod reader;
mod stage;
mod word;

pub use code::Code;
pub use fault::CodeFault;
pub use instr::Instr;
pub use law::{loops_are_streams, turns_end_by_marks};
pub use listing::list;
pub use loops::Loop;
pub use reader::read_code;
