//! Which queries are well formed, and their core.
//!
//! What comes in is a query, as `parse` of `tilt_syntax` gives it. `check` gives its core, or its first fault, by its one clause;
//! apart from that, it can only run out of memory. In `specs/`, `Types` and `WellFormed` say what has a fault, and `Checked` what
//! the core is. The types of a core are in `tilt_core`, and are exported here as well. For readers of other texts, `type_of` gives
//! the type of one expression over names that were declared, and `is_stretch` says whether one span bounds a stretch of time.
#![tactic(auto)]

mod builder;
mod checker;
mod declared;
mod fault;
mod grid;
mod types;
mod value_type;

pub use checker::{check, is_stretch};
pub use declared::Declared;
pub use fault::CheckFault;
pub use tilt_core::{Core, Def, Tree};
pub use types::type_of;
pub use value_type::ValueType;
