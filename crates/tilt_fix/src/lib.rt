//! Corrections of rows, and an output that follows them.
//!
//! The input is an accepted query, the rows of its inputs, and edits of them one after another. The output is the rows as they are then,
//! and what the query gives on them. A `Live` keeps the rows and the output together. By the clause `law` of `output`, the output is at
//! every moment the snapshots of what the query means on the rows. By the clauses of `apply`, the rows are those that the edits make
//! (`specs/Edited` of `tilt_edits`). An edit is computed only for the ticks that it reaches (`specs/Reached`); by `edits_reach_no_further`
//! all others stay as they are.
#![tactic(auto)]

mod change;
mod law;
mod live;
mod piece;
mod put;
mod reach;
mod window;

pub use law::edits_reach_no_further;
pub use live::Live;
