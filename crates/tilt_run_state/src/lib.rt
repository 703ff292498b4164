//! The state of a live run over a feed in either form, as text.
//!
//! What comes in is the form of a feed and a state: that of the run, and what is kept of the text of the feed, if that has readings. What
//! goes out is its text. The other way, a query, a form and a text come in. The state goes out that the text spells, or why the run can't
//! go on from it.
//!
//! `specs/Spelling` has the one spelling of a state (`spelled`). A state of a run over rows is spelled as a live state, `tilt live 1`. One
//! of a run over readings is spelled as `tilt live 2`: its setup by `specs/Setup`, what is kept, and then the live state. `specs/Valid`
//! says which states are valid for a run over a feed (`IsRunState`).
//!
//! The clause of `encode` says that exactly the spelling is appended. `put_opening` appends what the states of all runs over a feed begin
//! with, and `put_state` the rest. By the clauses of `read_state` a state is read exactly if the text spells a valid one of this query, and
//! each error has its exact cause (`RejectsState`). `setups_are_apart` says that two setups with the same spelling are the same except for
//! the tables of their zones. Nothing here reads or writes files.
#![tactic(auto)]

mod decoder;
mod encoder;
mod law;
mod query;
mod range;
mod reading;
mod rejection;
mod setup;
mod state;

pub use encoder::{encode, put_opening, put_state};
pub use law::setups_are_apart;
pub use range::is_in_range;
pub use reading::read_state;
pub use rejection::StateRejection;
pub use state::RunState;
