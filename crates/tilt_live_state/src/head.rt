use tilt_feed::Edge;

/// The edge of an input, and how many rows and updates of it follow.
#[derive(Clone, Copy, Debug, PartialEq, Eq)]
pub(crate) struct Head {
    pub(crate) edge: Edge,
    pub(crate) rows: u64,
    pub(crate) held: u64,
}
