use tilt_base::{Op1, Op2, Reducer};

/// An expression over numbered sources: the inputs in order from 0 on, then the definitions in order.
#[derive(Debug, Drop)]
pub enum Tree {
    /// A number, at every tick.
    Const(i64),
    /// `X[t+offset]`: the source as it is `offset` ticks later, or earlier if that is negative.
    Read {
        source: u32,
        offset: i64,
    },
    /// `reducer(X[t+from : t+to])`: what the reducer gives on the window of the ticks `t+from+1` to `t+to`.
    Reduce {
        reducer: Reducer,
        source: u32,
        from: i64,
        to: i64,
    },
    /// An operator on one expression.
    One(Op1, Box<Tree>),
    /// An operator on two expressions.
    Two(Op2, Box<Tree>, Box<Tree>),
    /// `if` the first `then` the second `else` the third.
    If(Box<Tree>, Box<Tree>, Box<Tree>),
}
