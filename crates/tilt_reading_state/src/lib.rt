//! What a text of readings keeps, as text.
//!
//! What comes in is what `ReadingText::kept` returned: the columns of the header, if it has come, and of each input what its converter
//! keeps. What goes out is its text, to append to another one. The other way, bytes come in, and what goes out is what their start spells
//! and how many bytes that takes, or that it spells nothing.
//!
//! `specs/Spelling` has the one spelling (`spelled_kept`), and `specs/Valid` says what a text can go on from (`IsResumable`) and which
//! numbers are in range (`IsInRange`). The clause of `encode_kept` says that exactly the spelling is appended. By the clauses of
//! `decode_kept` something is read exactly if the bytes begin with the spelling of something valid in range. It is read whatever comes
//! after it. `is_in_range` says whether the numbers of what is kept are in range. `ReadingText::resume` can go on from what was read if
//! that has as many inputs as the feed. Nothing here reads or writes files.
#![tactic(auto)]

mod decoder;
mod encoder;
mod fault;
mod header;
mod inputs;
mod range;
mod reader;

pub use decoder::decode_kept;
pub use encoder::encode_kept;
pub use fault::KeptFault;
pub use range::is_in_range;
