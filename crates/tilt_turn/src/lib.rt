//! One loop's turn over any buffers.
//!
//! What comes in is a loop, the buffers before its own as one value, and the start of a snapshot. What goes out is that snapshot: the
//! clause `snap` of `LoopState::turn` says that it is the one that `specs/Turn` of `tilt_code` defines. What is kept from turn to turn is a
//! `LoopState`. It has the position of each port, the cells that each window meets, the next mark of both, and a register for each
//! instruction. The clause `fit` says that it is fit for the turns that follow. A turn goes over the leaves of the body, and then over what
//! is computed by them. It doesn't look at constants, nor at a port or a window below its next mark, whose register has its cell already.
//! Equal instructions that read a buffer have one leaf, which writes the registers of all of them. A turn reads a buffer only for a port or
//! a window that reaches its next mark. It takes a few steps for each snapshot that its windows let in or out, and as many as the logarithm
//! of those that its cursors pass. It takes memory as its windows grow, and for the registers of its maps.
//!
//! A turn reads no snapshot that ends below the first tick that it reads at its own grid point, so the buffers needn't keep any
//! (`specs/Ready`, `IsKept`). Other lists may be the same up to the last tick that it reads, with the same next mark above it
//! (`specs/Same`). Over these a fit state stays fit, and the turn is the same: `proofs/Elsewhere`. If the other lists are the same up to
//! that tick, but may have other marks above it, the next marks that were seen don't hold over them. `LoopState::look_again` makes the
//! state fit for them.
#![tactic(auto)]

mod buffers;
mod computed;
mod kind;
mod leaf;
mod maps;
mod marks;
mod moving;
mod placed;
mod port;
mod reading;
mod register;
mod repeat;
mod span;
mod state;

pub use buffers::Buffers;
pub use state::LoopState;
