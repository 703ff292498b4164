use crate::version::Version;

/// By what the lines of inputs are read.
#[derive(Clone, Copy, Debug, PartialEq, Eq)]
pub(crate) struct Form {
    pub(crate) version: Version,
    /// The first tick that is kept.
    pub(crate) first: i64,
    /// The least cut. In the first version it is the cut of each input.
    pub(crate) least: i64,
}
