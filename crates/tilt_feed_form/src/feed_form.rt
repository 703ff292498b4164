use crate::reading_setup::ReadingSetup;
use tilt_watermarks::Options;

/// How the lines of a feed are written, and what they mean.
#[derive(Debug, Drop)]
pub enum FeedForm {
    /// Rows, values and watermarks, which are handed on by watermarks with these options.
    Rows { options: Options },
    /// Readings.
    Readings { setup: ReadingSetup },
}
