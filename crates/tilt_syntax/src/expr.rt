use tilt_base::{Op1, Op2, Reducer};
use tilt_lexer::Name;

/// An expression of a query, as its text has it. Parentheses leave no trace in it.
#[derive(Debug, Drop)]
pub enum Expr {
    /// A number, from 0 to 9223372036854775807.
    Num(i64),
    /// `true` or `false`.
    Truth(bool),
    /// `x[t+offset]`: the stream of that name as it is `offset` ticks later, or earlier if that is negative. `x` alone is the offset 0.
    Read {
        name: Name,
        offset: i64,
    },
    /// `reducer(x[t+from : t+to])`: what the reducer gives on the window of the ticks `t+from+1` to `t+to`.
    Reduce {
        reducer: Reducer,
        name: Name,
        from: i64,
        to: i64,
    },
    /// An operator on one expression.
    One(Op1, Box<Expr>),
    /// An operator on two expressions.
    Two(Op2, Box<Expr>, Box<Expr>),
    /// `if` the first `then` the second `else` the third.
    If(Box<Expr>, Box<Expr>, Box<Expr>),
}
