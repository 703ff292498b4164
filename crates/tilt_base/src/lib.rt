//! What every other crate uses. These are the limits of times, cells, numbers spelled in decimal digits, the scalar operators on
//! cells, the reducers on lists of numbers, grids of ticks, and spans.
//!
//! What comes in is bytes, cells, lists of numbers and ticks; what goes out is numbers, cells and ticks. Nothing here takes memory.
//! `read_number` returns the number spelled, and `read_shortest` the number of a shortest decimal. `apply1`, `apply2`, `choose` and
//! `reduce` return what the tables of `specs/Scalar` and `specs/Reduce` say. `Grid::ceil` and `Grid::floor` return the nearest points
//! of `specs/Grid`, and `Grid::is_point` returns whether a tick is one.
//!
//! The laws of numbers, lists and grid points that several crates above cite are in `proofs/`.
#![tactic(auto)]

mod cell;
mod grid;
mod limits;
mod number;
mod operator;
mod reducer;
mod scalar;
mod span;

pub use cell::Cell;
pub use grid::Grid;
pub use limits::{FILE, OFFSET, PERIOD, REACH, T, WIDE};
pub use number::{read_cell, read_number, read_shortest};
pub use operator::{Op1, Op2};
pub use reducer::{REDUCERS, Reducer, reduce};
pub use scalar::{apply1, apply2, choose};
pub use span::Span;
