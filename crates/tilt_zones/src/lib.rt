//! Zones: what the clocks of a place show at a moment, and at which moments they show a local time.
//!
//! What comes in is the bytes of a file of the time zone database (`read_zone`), and then local times and moments, both in whole seconds.
//! A moment counts from 1970-01-01T00:00:00Z. A local time counts from 1970-01-01T00:00:00 on clocks of the zone, as if every day had
//! 86,400 seconds. What goes out is the moment at which clocks show the local time, or the cause why there isn't one.
//!
//! `specs/Zone` says what clocks show at a moment; a user can check it against a table of transitions. The clauses of
//! `Zone::moment_of_local` say that its result is exactly what that means: the moment, that none shows the local time, or that several do.
//! `each_is_the_inverse` does nothing; its clauses say that each way undoes the other. Files are read by `jiff_tz`, and `specs/Table`
//! says which transitions are taken from it.
#![tactic(auto)]

mod fault;
mod law;
mod moments;
mod order;
mod place;
mod read;
mod transition;
mod zone;

pub use fault::{LocalFault, ZoneFault};
pub use law::each_is_the_inverse;
pub use moments::Fold;
pub use read::read_zone;
pub use transition::Transition;
pub use zone::Zone;
