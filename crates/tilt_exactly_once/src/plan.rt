/// How a feed is served into a folder.
#[derive(Clone, Copy, Debug, PartialEq, Eq)]
pub struct Plan {
    /// The byte of the feed, counted from 0, from which on it is read. It can be a byte that is committed: then what is committed of the
    /// feed is passed over.
    pub from: u64,
    /// After at least this many lines, all that was taken is committed.
    pub every: u64,
}
