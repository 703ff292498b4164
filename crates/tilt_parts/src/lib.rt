//! Parts of the output domain, which are run in any order of steps. What comes in is an accepted query, the rows of its inputs and the cuts
//! between the parts. What goes out is the snapshots of each part, and of all together.
//!
//! Each part has a pipe of its own code. The clauses that matter are `after` of `step` and `follow`, and `whole` of `joined`. `after` says
//! that the parts are where the steps so far take them, in whatever order the steps of different parts come. `whole` says that the lists of
//! the parts, joined at the cuts, are the snapshots of what the query means on the whole output domain.
#![tactic(auto)]

mod joined;
mod part;
mod parts;

pub use parts::Parts;
