//! Corrections of rows, called edits, and the text that says them.
//!
//! The input is a text and the names of a query's inputs. The output is the edits that it says, or its first bad line: the clauses of
//! `read_edits` say so over `specs/Edits`. What edits make of rows, and why they make nothing of them (`FixFault`), is `specs/Edited`.
#![tactic(auto)]

mod edit;
mod fault;
mod law;
mod line;
mod reader;

pub use edit::Edit;
pub use fault::{EditFault, FixFault};
pub use law::edits_have_one_outcome;
pub use reader::read_edits;
