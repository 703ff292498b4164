use crate::decimal::Decimal;
use tilt_base::{Op1, Op2, Reducer};

/// An expression over numbered sources, in which literals are decimals.
#[derive(Debug, Drop)]
pub enum DecimalTree {
    /// A number in units.
    Literal(Decimal),
    /// `true` or `false`.
    Truth(bool),
    /// `X[t+offset]`: the source as it is `offset` ticks later, or earlier if that is negative.
    Read {
        source: u32,
        offset: i64,
    },
    /// `reducer(X[t+from : t+to])`: what the reducer gives on the window of the ticks `t+from+1` to `t+to`.
    Reduce {
        reducer: Reducer,
        source: u32,
        from: i64,
        to: i64,
    },
    /// An operator on one expression.
    One(Op1, Box<DecimalTree>),
    /// An operator on two expressions.
    Two(Op2, Box<DecimalTree>, Box<DecimalTree>),
    /// `if` the first `then` the second `else` the third.
    If(Box<DecimalTree>, Box<DecimalTree>, Box<DecimalTree>),
}
