/// A number of a text.
#[derive(Clone, Copy, Debug, PartialEq, Eq)]
pub(crate) struct Written {
    /// Its digits as a number, without its point.
    pub digits: i64,
    /// How many of the digits come after the point, or 0 if it has none.
    pub decimals: u64,
    /// The place of its first digit in the text.
    pub at: u64,
}
