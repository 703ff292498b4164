use tilt_live_run::Display;
use tilt_watermarks::Options;

/// What is asked of a run, apart from how readings are written and what they mean.
#[derive(Clone, Copy, Debug, PartialEq, Eq)]
pub struct Asked {
    /// What is written, and how.
    pub display: Display,
    /// Whether the first bad line stops the run.
    pub strict: bool,
    /// What is asked of its watermarks.
    pub watermarks: Options,
    /// How many keys its feed may have at most, if each line has a key.
    pub keys: Option<u64>,
}
