//! What it means that the run of a query in units reports no results that leave 64 bits.
//!
//! Nothing comes in and nothing goes out: this is a law of what `tilt-live --units` does. If bounds of the inputs exclude that a result
//! leaves 64 bits, the program doesn't count them. Otherwise a second run, which watches the first one, does. If it counted none by the
//! end of a whole feed, or if the rows kept to the bounds, all that was written is exact. `specs/Exact` says which runs these are.
#![tactic(auto)]

mod law;

pub use law::quiet_runs_are_exact;
