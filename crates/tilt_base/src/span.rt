/// The ticks of `(start, end]` that a query writes after `over`. Any two numbers are allowed here: whether they bound a
/// domain is tested later.
#[derive(Clone, Copy, Debug, PartialEq, Eq)]
pub struct Span {
    /// The tick before the first one.
    pub start: i64,
    /// The last tick.
    pub end: i64,
}
