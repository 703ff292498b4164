//! How a feed is served to a run of it. What comes in is a port, from which the bytes of the feed are read. What goes out is what the run
//! writes to it, and the reports of bad lines.
//!
//! `FeedRun` is the trait of runs. What a run writes and reports for bytes of its feed, and which line stops it, is a `FeedMeaning`.
//! `serve` reads the feed to its end, and its clause `served` says what it leaves of the port and of the reports. Before more is read,
//! exactly the output for all that was read is written and handed on. `servings_are_joined` is the law of feeds that are served by runs in
//! turn.
#![tactic(auto)]

mod feed;
mod feed_run;
mod halt;
mod law;
mod stop;

pub use feed::serve;
pub use feed_run::FeedRun;
pub use halt::Halt;
pub use law::servings_are_joined;
pub use stop::Stop;
