//! Loop code that runs while its rows come in.
//!
//! What comes in is loop code and the events of a feed, one after another. What goes out is the snapshots of the code's last loop, each as
//! soon as it is known. `IsEngineOf engine code feed given` of `specs/Engines` says that `engine` runs a code after a feed. It also says
//! that the engine has returned the first `given` snapshots of the run on the rows of the feed at rest, `run_at_rest code feed`. The
//! clauses of `Engine` say what each call does with that:
//!
//! - `new` starts with the empty feed, and with no snapshot returned.
//! - `take` of an event that is allowed goes on to the feed after it. Otherwise it returns the first rule that is broken, and nothing
//!   changes. Nothing changes either if memory runs out.
//! - `next limit` returns the snapshot that comes after the first `given`, if it ends at the limit or below it. The limit has to be known
//!   of the last loop. `specs/CodeHorizon` says up to where each buffer of a code is known.
//!
//! The clause `next` matters most. Its proof rests on the law `buffers_go_on`: if the inputs of a code go on, so does each buffer, up to
//! its own horizon. So a snapshot whose end is known stays, whatever comes later.
//!
//! From time to time, rows and snapshots that no next turn reads are let go, and snapshots that were returned. `IsEngineOf` says which have
//! gone from each buffer (`gone`). Together with what is left they are the rows of the feed, so no clause of a call mentions them.
//!
//! `needed code feed given` of `specs/Needed` counts what has to be kept: what the next turns may read, and what wasn't returned. After a
//! call of `next` or `begun` an engine keeps no more than its room (clause `bounded`). Its room is `FEW` at first, and changes only when it
//! forgets. Then it keeps what is needed at that moment, and its room is at most twice that, or `FEW`. An event adds at most two rows.
//!
//! If memory runs out in `next` or `begun`, each later call of them reports the same.
#![tactic(auto)]

mod advancing;
mod closing;
mod engine;
mod events;
mod fault;
mod fed_rows;
mod forgetting;
mod horizon;
mod inlet;
mod law;
mod made;
mod starting;
mod status;
mod stock;
mod turning;
mod wanted;

pub use engine::{Engine, FEW};
pub use fault::TakeError;
pub use fed_rows::FedRows;
pub use law::buffers_go_on;
