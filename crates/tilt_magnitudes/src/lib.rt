//! Bounds for each expression of a query, before it runs, and the first one that can leave 64 bits.
//!
//! What comes in is an interval for the values of each input, how often its snapshots start, and a core. `magnitudes` gives an interval
//! for each source, or the first expression that can leave 64 bits, with its place and its exact interval. `specs/Interval` has the
//! interval of what each operator and each reducer gives, and `specs/Magnitude` those of expressions and queries. By the clauses of
//! `values_stay_within_bounds`, rows within the bounds of the inputs give values within the intervals of all sources, and no operator and
//! no reducer overflows. `snapshots_met` gives how many snapshots a window can meet; its law is `windows_meet_few_snapshots`.
#![tactic(auto)]

mod arithmetic;
mod expression;
mod fault;
mod interval;
mod law;
mod marks;
mod met;
mod overflow;
mod query;

pub use fault::MagnitudeFault;
pub use interval::{Interval, WideInterval};
pub use law::values_stay_within_bounds;
pub use marks::windows_meet_few_snapshots;
pub use met::{Rate, snapshots_met};
pub use overflow::Overflow;
pub use query::magnitudes;
