//! The live engine of an accepted query.
//!
//! What comes in is an accepted query and the events of its feed, one after another. What goes out is snapshots of its output, each as
//! soon as it is final. `IsLiveOf live accepted feed given` of `specs/Lives` says that `live` is the engine of a query after a feed, and
//! that it has returned the first `given` of the snapshots `printed accepted.core feed`. The clauses of `Live` say together what it does,
//! whatever events come, and in whatever order with calls of `next` and `begun`:
//!
//! - `new` starts with the empty feed, and with no snapshot returned.
//! - `take` of an event that is allowed goes on to the feed after it. If the event isn't allowed, it returns the first rule that is
//!   broken, and nothing changes. Nothing changes either if memory runs out. `fault` returns that rule without taking the event.
//! - `next` returns the snapshot of `printed` that comes after the first `given`, and `given` is one higher then. It returns `None` if
//!   there is no such snapshot.
//! - `resume` starts from what was kept of a feed that was left (`IsLeft` of `specs/Resuming`). That is the tick after which the output
//!   goes on, whether the feed is finished, and what is left of each input. It is the engine of that feed, with all of `printed` returned.
//!   So from there on it returns what the engine that was left would have returned. `resume_tick` and `first_read` return what to keep.
//!
//! So at each moment the snapshots that were returned are the first `given` of `printed`, each once and in order. And `next` returns
//! `None` exactly if all of them were returned. What is printed after some events is a prefix of what is printed after further ones, and
//! the whole output of the query once the feed is finished. These are laws of the definitions, which `tilt_feed` has as clauses
//! (`known_is_final`, `all_is_printed`). After all of `printed`, `begun` returns the start and the value of the snapshot that has begun.
//!
//! `IsRunning live accepted code left returned` says what a live engine does inside: it runs a code of the query on what is left of a feed.
//! Each call says that too, and how much is kept is said over that code and what is left. An engine from `new` runs the code for the whole
//! output on the feed itself (`started`).
//!
//! After a call of `next` or `begun` no more is kept than there is room for. The room is `FEW` of `tilt_engine` at first, and changes only
//! when the engine forgets. Then it keeps what is needed at that moment (`needed` of `tilt_engine`), and its room is at most twice that, or
//! `FEW` (clause `bounded`). An event adds at most two rows.
//!
//! If memory runs out in `next` or `begun`, each later call of them reports the same.
#![tactic(auto)]

mod horizon;
mod law;
mod live;
mod restoring;

pub use law::code_reaches_the_horizon;
pub use live::Live;
