/// The grid that a query writes after `every`. Any two numbers are allowed here: whether they make a grid is tested later.
#[derive(Clone, Copy, Debug, PartialEq, Eq)]
pub struct Every {
    /// The period in ticks, which follows `every`.
    pub period: i64,
    /// The offset in ticks, which follows `from`; 0 if none is written.
    pub offset: i64,
}
