use crate::display::Display;
use tilt_feed_form::FeedForm;

/// What is asked of a run.
#[derive(Debug, Drop)]
pub struct RunOptions {
    /// What is written, and how.
    pub display: Display,
    /// Whether the first bad line stops the run.
    pub strict: bool,
    /// How the lines of its feed are written, and what they mean.
    pub form: FeedForm,
}
