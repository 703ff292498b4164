//! What a live program talks to: bytes come in piece by piece, and bytes go out, in one order.
//!
//! `Port` is the trait. The code above it is generic, and a clause of it can say what had been written at each moment at which more was
//! read: its `transcript` has these moments. `StdPort` is made of a reader and a writer of the standard library, and says nothing of what
//! goes through them. `MemPort` keeps all of it in memory, and fails at the calls that it is given. `BufferPort` keeps what is
//! written to it, and `Unheard` is a sink that drops what it gets. `proofs/Writing` has lemmas that compose writes.
#![tactic(auto)]

mod asked;
mod buffer_port;
mod mem_port;
mod port;
mod std_port;
mod unheard;

pub use asked::Asked;
pub use buffer_port::BufferPort;
pub use mem_port::MemPort;
pub use port::Port;
pub use std_port::StdPort;
pub use unheard::Unheard;
