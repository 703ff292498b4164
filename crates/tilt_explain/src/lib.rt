//! How far a query reads and how it is planned, as text for its reader.
//!
//! What comes in is a core and its margins; what goes out is lines. They give the query's look-back and look-ahead, how far each source is
//! read, and whether it is used. They also give which definitions become one loop with the definitions that read them, and how many loops
//! there are. The clause of `explain_text` says that the lines are as `specs/Explain` defines them.
#![tactic(auto)]

mod explaining;

pub use explaining::explain_text;
