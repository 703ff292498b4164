//! Rows of a series, and snapshots of a stream, both in the order of time.
//!
//! The input is rows. The output is a list of snapshots without gaps that has the same cell and the same mark at every tick: the
//! clause `stream` of `SnapList::from_rows`. For each tick a list returns the cell of its stream (`value_at`) and the place of its
//! next mark (`next_begin`), by binary search. A `Cursor` returns the same of any `Buffer`, also of rows, as it moves on with time:
//! the clauses of `look`. Its time is the logarithm of how far it goes, and it takes no memory.
//!
//! The machines read rows and lists by cursors, and the commands read them as slices. Only tests call `SnapList::from_rows`,
//! `value_at` and `next_begin`, `get` of `Rows` and of `SnapList`, `Rows::is_empty`, and `move_to`, `value` and `next` of
//! `Cursor`.
//!
//! The definitions that all crates above share are in `specs/`. They are streams and their marks, and what scalar operators,
//! windows, grids and stretches of time make of them. They also say when two streams agree, and what the snapshots of a stream and
//! their text are. Their laws are in `proofs/`: of streams that agree or are the same, and of the snapshots of a stream. Others are
//! of lists that fill a stretch, of windows from mark to mark, and of lists that are cut and joined again.
#![tactic(auto)]

mod buffer;
mod cursor;
mod join;
mod rows;
mod seen;
mod snap;
mod snap_list;

pub use buffer::Buffer;
pub use cursor::Cursor;
pub use join::join_open;
pub use rows::Rows;
pub use seen::Seen;
pub use snap::{Row, Snap};
pub use snap_list::SnapList;
