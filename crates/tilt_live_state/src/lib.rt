//! The state of a live run, as text.
//!
//! What comes in is a state: the query, how far the run is, and of each input its edge, its kept rows and the updates that it holds. What
//! goes out is its text, `tilt live 1`. The other way, bytes come in, and the state goes out that they spell, or that they spell none.
//!
//! `specs/Spelling` has the one spelling of a state (`spelled`), and `specs/Valid` says which states are valid (`IsState`). The clause of
//! `encode` says that exactly the spelling is appended. The clauses of `decode` say that a state is read exactly if the bytes spell a valid
//! one. A text that was cut off, or that is spelled in another way, is none. `is_in_range` says whether the numbers of a state are in
//! range. Nothing here reads or writes files.
#![tactic(auto)]

mod decoder;
mod encoder;
mod fault;
mod head;
mod inputs;
mod progress;
mod query;
mod range;
mod reader;
mod state;
mod valid;

pub use decoder::{Decoded, decode};
pub use encoder::encode;
pub use fault::StateFault;
pub use progress::Progress;
pub use range::is_in_range;
pub use state::{InputState, LiveState};
