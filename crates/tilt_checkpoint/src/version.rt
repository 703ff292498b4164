/// How a checkpoint is spelled.
#[derive(Clone, Copy, Debug, PartialEq, Eq)]
pub(crate) enum Version {
    /// One cut for all inputs: it is read, and never written.
    First,
    /// A cut for each input.
    Second,
}
