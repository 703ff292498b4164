use tilt_base::Cell;

/// What a stream has at a tick, and where its next mark is.
#[derive(Clone, Copy, Debug)]
pub struct Seen {
    /// The cell at the tick.
    pub cell: Cell,
    /// The smallest tick above it at which the stream has a mark, or `None` if no such tick has one.
    pub next: Option<i64>,
}
