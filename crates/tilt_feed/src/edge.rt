use crate::open_row::OpenRow;

/// Where what is known of an input ends.
#[derive(Clone, Copy, Debug, PartialEq, Eq)]
pub struct Edge {
    /// The row that has begun and whose end isn't known yet, if there is one.
    pub open_row: Option<OpenRow>,
    /// A tick. Whatever comes later starts at or after it, and an open row ends at or after it.
    pub watermark: i64,
}
