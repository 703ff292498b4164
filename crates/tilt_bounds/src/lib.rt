//! How far back and ahead a query reads, and the stretch of time on which each definition must be computed.
//!
//! What comes in is a core. `reach` gives its margins: how far each source is read, back and ahead of the output, and the look-back and
//! look-ahead of the whole query. If one of these two numbers is too large, it gives the two numbers as an error. Its clauses `changes`,
//! `local` and `causal` are the laws that make margins useful: that nothing else of a source matters. `stretch` gives the stretch of one
//! definition.
#![tactic(auto)]

mod asking;
mod fault;
mod loop_span;
mod margins;
mod need;
mod query_reach;
mod wide_need;
mod widest;

pub use fault::ReachFault;
pub use loop_span::{LoopSpan, stretch};
pub use margins::Margins;
pub use need::{Need, need_at};
pub use query_reach::reach;
