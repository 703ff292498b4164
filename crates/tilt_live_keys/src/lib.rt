//! The run of a query on a live feed with keys, piece by piece: each key has a run of its own.
//!
//! What comes in is bytes of the feed, in pieces of any size. A line is `KEY,NAME,START,END,VALUE`: behind its key it is a line of rows, as
//! `tilt_live_run` reads it. Keys in feeds of readings aren't read. After each piece the rows of each key are written to a port, with the
//! key before them. Bad lines are reported by their numbers in the whole feed.
//!
//! `IsKeyedLiveOf run recipe bytes` of `specs/Runs` says that `run` is the run of a recipe after these bytes. The clauses of
//! `FeedRun` say that after a piece it is the run after the bytes with the piece (`goes_on`). They also say that exactly what
//! `specs/Output` says was written (`adds`), that exactly the bad lines were reported (`reports`), and when the run stops (`stops`). The
//! clauses of `keys_are_alone` are the law that each key has the output of a run that has only the lines of the key.
#![tactic(auto)]

mod copies;
mod key_live;
mod key_recipe;
mod keyed_lines;
mod keyed_live;
mod law;
mod report;

pub use key_recipe::KeyRecipe;
pub use keyed_live::KeyedLive;
pub use law::keys_are_alone;
