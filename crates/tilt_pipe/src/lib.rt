//! The pipelined machine.
//!
//! What comes in is a code and its inputs; what goes out is the snapshots of its last loop, one for each call. Pipes share the rows of
//! inputs (`Input`), so that many pipes over the same rows copy none of them. The loops pull one another: each makes only what later loops
//! read, and of that its ring keeps only what their next turns may read. One of these later loops holds the ring, and reads the first
//! snapshot there: until it goes on, the ring isn't read. `specs/Made` says what each loop has made after n snapshots of the output, and
//! `specs/Rings` what its ring holds then. The clauses of `Pipe::next` say that the snapshots are the snapshots of the code's run
//! (`given`), and that the rings are these (`after`). The machine over whole buffers makes the same turns. Outside this crate only tests
//! use a `SnapRing`.
#![tactic(auto)]

mod chain;
mod input;
mod loop_ring;
mod pipe;
mod read;
mod rings;
mod run;
mod snap_ring;
mod sources;
mod starting;

pub use input::{Input, share_inputs, share_rows, take_rows};
pub use pipe::Pipe;
pub use run::run_pipe;
pub use snap_ring::SnapRing;
