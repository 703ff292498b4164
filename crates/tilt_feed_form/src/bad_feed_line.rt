use thiserror::Error;
use tilt_feed_text::BadLine;
use tilt_reading_text::BadReadingLine;

/// Why a line of a feed is bad. A bad line changes nothing.
#[derive(Clone, Copy, Debug, PartialEq, Eq, Error)]
pub enum BadFeedLine {
    /// The feed is one of rows.
    #[error("{why}")]
    Rows { why: BadLine },
    /// The feed is one of readings.
    #[error("{why}")]
    Readings { why: BadReadingLine },
}
