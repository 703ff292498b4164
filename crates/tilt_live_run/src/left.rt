use tilt_live_state::InputState;
use tilt_reading_text::KeptText;

// What is left of a feed for the next run.
#[derive(Drop)]
pub(crate) struct Left {
    // Of each input.
    pub(crate) inputs: Vec<InputState>,
    // Whether the feed is finished.
    pub(crate) finished: bool,
    // The greatest watermark that lines have given, and the same if the lateness isn't taken off.
    pub(crate) greatest: Option<i64>,
    pub(crate) latest: Option<i64>,
    // What is kept of its text, if it has readings.
    pub(crate) kept: Option<KeptText>,
}
