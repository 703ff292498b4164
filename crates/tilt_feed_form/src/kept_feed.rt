use tilt_reading_text::KeptText;
use tilt_watermarks::KeptState;

/// What is kept of the text of a feed, apart from its form. With its form it is enough to go on from.
#[derive(Drop)]
pub enum KeptFeed {
    /// What the watermarks of a feed of rows keep.
    Rows { kept: KeptState },
    /// What the text of a feed of readings keeps.
    Readings { kept: KeptText },
}
