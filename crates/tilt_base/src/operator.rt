/// An operator on one cell.
#[derive(Clone, Copy, Debug, PartialEq, Eq)]
pub enum Op1 {
    /// The negative: null if 64 bits don't hold it.
    Neg,
    /// 1 for 0, and 0 for any other number.
    Not,
    /// 1 for null, and 0 for a number.
    IsNull,
}

/// An operator on two cells. The comparisons, `And` and `Or` give 1 or 0; any number but 0 is true.
#[derive(Clone, Copy, Debug, PartialEq, Eq)]
pub enum Op2 {
    /// The exact sum: null if 64 bits don't hold it.
    Add,
    /// The exact difference: null if 64 bits don't hold it.
    Sub,
    /// The exact product: null if 64 bits don't hold it.
    Mul,
    /// The quotient, truncated toward zero: null for the divisor 0, and if 64 bits don't hold it.
    Div,
    /// The remainder, with the sign of the dividend: null for the divisor 0.
    Rem,
    Eq,
    Ne,
    Lt,
    Le,
    Gt,
    Ge,
    And,
    Or,
    /// The first if the second is true, else null.
    When,
    /// The first if it isn't null, else the second.
    IfNull,
}
