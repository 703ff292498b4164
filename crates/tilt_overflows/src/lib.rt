//! A query that watches another one for results that leave 64 bits.
//!
//! What comes in is the core of a query and its margins. `watch_query` gives the core of the watching query, which emits 1 at the ticks at
//! which a result of the query left 64 bits, and null at others. `specs/Leaves` has the expression that watches an expression, and
//! `specs/Watching` the core. By the clauses of `watching_queries_see_overflows` it misses no overflow that the output can depend on.
//! Nor does it count anything else: a division by 0 and a sum over an empty window are null, and don't leave 64 bits.
#![tactic(auto)]

mod fault;
mod law;
mod leaves;
mod names;
mod tree;
mod watching;

pub use fault::WatchError;
pub use law::{watched_queries_are_exact, watching_queries_see_overflows};
pub use watching::watch_query;
