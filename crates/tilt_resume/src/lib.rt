//! What is left of a feed is enough for the rest of its output.
//!
//! What comes in and what goes out are definitions: `tilt_input_state` says what is left of a feed after all that was printed of it. The
//! clauses of `output_goes_on_from_what_is_left` say that this is enough: what comes after is what the query gives on what is left,
//! whatever events come later. `specs/Restoring` says which events make such inputs of unknown ones.
#![tactic(auto)]

mod law;

pub use law::output_goes_on_from_what_is_left;
