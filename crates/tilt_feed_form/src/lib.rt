//! The text of a live feed in either of its forms: from lines of rows or of readings to the events of the feed, line by line.
//!
//! What comes in is the form of a feed, `FeedForm`, and its lines, one after another. What goes out is the events that a line hands on, or
//! why it is bad, and the line that reports it. Lines of rows go through `tilt_feed_text` and `tilt_watermarks`, and lines of readings
//! through `tilt_reading_text`.
//!
//! `specs/Said` says what lines do in both forms. There `events_of form inputs lines` is the one definition of the events that lines make,
//! and `line_fault` says why a line is bad. The clauses of `FeedText::take` say that it is the step `line_step`.
//!
//! A bad line is skipped, unless bad lines stop the run. A feed of readings can't be read without its header, so a bad line in its place
//! always ends the feed. `FeedText::is_headless` says so, and the caller of `take` stops then.
#![tactic(auto)]

mod bad_feed_line;
mod feed_form;
mod feed_text;
mod kept_feed;
mod reading_lines;
mod reading_setup;
mod report;
mod row_lines;

pub use bad_feed_line::BadFeedLine;
pub use feed_form::FeedForm;
pub use feed_text::FeedText;
pub use kept_feed::KeptFeed;
pub use reading_setup::ReadingSetup;
pub use report::put_report;
