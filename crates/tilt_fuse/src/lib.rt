//! Which definitions of a query have loops of their own, and what each loop computes.
//!
//! What comes in is a core; what goes out is the list of its loops, each with an expression over the sources that have
//! buffers. With fusion, definitions that are small enough are merged into those that read them, and have no loop. `plan`
//! gives the loops that `specs/Plan` defines (`plan`), and each gives the stream that the body of its definition gives
//! (`means`).
#![tactic(auto)]

mod fused;
mod fusion;
mod loop_list;
mod merged;
mod merging;
mod plan_loop;
mod planner;
mod progress;
mod query;
mod reading;
mod shift;
mod usage;
mod window;

pub use fused::Fused;
pub use loop_list::LoopList;
pub use plan_loop::PlanLoop;
pub use planner::plan;
