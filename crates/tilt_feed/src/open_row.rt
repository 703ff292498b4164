/// A row that has begun and whose end isn't known yet. Its value holds from the tick `start + 1` on.
#[derive(Clone, Copy, Debug, PartialEq, Eq)]
pub struct OpenRow {
    /// The tick before the first one.
    pub start: i64,
    /// The value.
    pub value: i64,
}
