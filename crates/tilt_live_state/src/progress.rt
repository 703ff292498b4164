use tilt_watermarks::Options;

/// How far a live run is.
#[derive(Clone, Copy, Debug, PartialEq, Eq)]
pub struct Progress {
    /// What is asked of its watermarks, in ticks.
    pub options: Options,
    /// How many bytes of the feed were taken.
    pub bytes: u64,
    /// How many lines of the feed were taken.
    pub lines: u64,
    /// How many bytes of output were written.
    pub written: u64,
    /// The tick after which the output goes on.
    pub from: i64,
    /// The start of the snapshot that has begun and was shown, if one was.
    pub shown: Option<i64>,
    /// Whether the feed is finished.
    pub finished: bool,
    /// The largest watermark that lines have given to any input, if they have given one.
    pub greatest: Option<i64>,
    /// The same if the lateness isn't taken off.
    pub latest: Option<i64>,
}
