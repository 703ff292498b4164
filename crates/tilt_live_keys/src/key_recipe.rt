use tilt_compiler::Accepted;
use tilt_live_run::Display;
use tilt_watermarks::Options;

/// What the runs of all keys are made from, and what is asked of them. The lines of a key are rows.
#[derive(Debug, Drop)]
pub struct KeyRecipe {
    /// The query.
    pub accepted: Accepted,
    /// Whether the definitions of the query are fused when it is compiled for a key.
    pub fuse: bool,
    /// What of the output of a key is written, and how.
    pub display: Display,
    /// What is asked of the watermarks of a key.
    pub options: Options,
    /// Whether the first bad line stops the run.
    pub strict: bool,
    /// How many keys there may be.
    pub max_keys: usize,
}
