//! The state of a run over a feed with keys, as text.
//!
//! What comes in is the last line of every key and each key with the text of its run's state, in the order of the keys' first lines. What
//! goes out is one text. The other way, a text comes in, and its parts go out. What the state of a key means isn't known here.
//!
//! `specs/Spelling` has the one spelling of a state (`spelled`). Its first line names the format and its version. Each part comes after its
//! length in bytes, so a part can have any bytes. The clauses of `put_shared`, `put_key` and `put_end` say that exactly these pieces of the
//! spelling are appended, and the clause of `encode` that it is the whole. By the clauses of `read_keyed_state` a state is read exactly if
//! the text is its spelling, and each error has its exact cause. `keyed_states_are_apart` says that two states have two spellings.
#![tactic(auto)]

mod encoder;
mod fault;
mod law;
mod part;
mod reader;
mod state;

pub use encoder::{encode, put_end, put_key, put_shared};
pub use fault::KeyedStateFault;
pub use law::keyed_states_are_apart;
pub use reader::read_keyed_state;
pub use state::{KeyState, KeyedState};
