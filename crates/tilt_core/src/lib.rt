//! The core of an accepted query, and its meaning.
//!
//! What comes in is the parts of a core: names of inputs and of definitions, and the definitions, whose expressions name their
//! sources by number. What goes out is a `Core`, whose parts are always the parts of an accepted query (the clauses `accepted`);
//! `tilt_types` makes cores, and exports these types. In `specs/`, `Meaning` builds the streams of a whole query from the operators,
//! windows, grids and stretches that `tilt_stream` defines, and says what the query gives. `Needs` says how far it looks back and
//! ahead. A source changes only at marks, by the clauses of `changes_only_at_marks`.
#![tactic(auto)]

mod definition;
mod law;
mod query_core;
mod tree;

pub use definition::Def;
pub use law::changes_only_at_marks;
pub use query_core::Core;
pub use tree::Tree;
