//! Lines of a live feed with keys, cut into their key and what they say to it, and the output of a key with the key before each line.
//!
//! What comes in is the bytes of a line or of an output. `split_key` gives the key and the rest of a line, which is a line of the key's own
//! feed: its clauses are over `address` of `specs/Address`. `put_with_key` appends an output with a key before each line: its clause is
//! over `with_key` of `specs/Outputs`. The clauses of `keys_come_off` are laws: a key that was written before a line comes off again, and
//! lines of one key aren't taken for those of another.
//!
//! `specs/Feeds` says which lines of a feed are those of a key (`lines_of`), and what a feed with keys is after each line
//! (`KeyedFeed`). The clause of `keys_hear_their_lines` is the law that these agree.
#![tactic(auto)]

mod key_fault;
mod law;
mod output;
mod split;

pub use key_fault::KeyFault;
pub use law::{keys_come_off, keys_hear_their_lines};
pub use output::put_with_key;
pub use split::split_key;
