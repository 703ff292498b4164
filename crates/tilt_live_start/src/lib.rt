//! A live engine that starts in the middle of a feed: after a tick, or from the checkpoint of sessions.
//!
//! What comes in is an accepted query, and a checkpoint that sessions of it left (`tilt_session`). What goes out is a `LiveSession`, which
//! goes on as a live engine (`tilt_live`). `specs/Seen` says of which feed: its inputs have the rows that the sessions saw, and each is
//! known up to its own cut. `IsLiveSessionOf session accepted feed given` of `specs/Sessions` says that `given` of the snapshots
//! `printed accepted.core feed` were printed, by the sessions or by `session`. The clauses of `LiveSession` say together what it does,
//! whatever events come:
//!
//! - `resume` goes on from a checkpoint. All that the sessions printed counts as printed.
//! - `take`, `next` and `begun` do what those of `Live` do. `next` returns the snapshot of `printed` that comes after the first
//!   `given`. The one that is open at the checkpoint is returned as one, from where it began.
//! - `into_live` gives the live engine itself, once that snapshot was returned.
//!
//! So the snapshots that the sessions printed, and then those that `next` returns, are the first ones of `printed`, each once and in order.
//! That the sessions printed a prefix of it is the clause of `sessions_print_what_feeds_do`.
//!
//! The sessions keep no rows from before the tick that was decided last, however long a snapshot is open there. So the engine gives the
//! output after a tick in the middle of that snapshot. `output_goes_on_after_a_tick` is the law for any query and any tick. Given the rows
//! that this output can still read, an engine returns exactly the snapshots of `printed` that end after the tick. The first of them starts
//! at the tick, if it began earlier (`specs/After`).
#![tactic(auto)]

mod inputs;
mod law;
mod live_session;
mod tick;

pub use law::{output_goes_on_after_a_tick, sessions_print_what_feeds_do};
pub use live_session::LiveSession;
