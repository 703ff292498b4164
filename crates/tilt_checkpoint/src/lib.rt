//! Checkpoints: what a session of a query hands on to the next one, and how they are spelled.
//!
//! What comes in is checkpoints and bytes; what goes out is bytes, and checkpoints again. A `Checkpoint` keeps that it is valid, as
//! `specs/Valid` says. The clause of `encode` says that it gives the text of `specs/Spelling`, in its second version. The clauses of
//! `decode` say that it gives the valid checkpoint that the bytes spell, in either version (`checkpoint`, `only`). It rejects the bytes
//! exactly if they spell none (`bad`, `none`); its only other error is out of memory. With the checkpoint it hands on the core and the
//! margins of its query, so that nobody checks them again. `Cuts` are a cut for each input, and the least of them (`specs/Cuts`).
//! `specs/Decided` says what is decided at the least cut, and which ticks must be kept then.
#![tactic(auto)]

mod body;
mod checkpoint;
mod cuts;
mod decoder;
mod encoder;
mod fault;
mod form;
mod frame;
mod kept;
mod query;
mod reader;
mod series;
mod version;

pub use checkpoint::Checkpoint;
pub use cuts::Cuts;
pub use decoder::{Decoded, decode};
pub use encoder::encode;
pub use fault::CheckpointFault;
pub use frame::Frame;
pub use kept::Kept;
