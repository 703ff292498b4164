use tilt_base::Reducer;
use tilt_lexer::Name;
use tilt_syntax::Expr;

/// A step of a pipeline, between its first and its last. In its expression `v` is a value of the list before it, and `w` one of
/// the series that it joins.
#[derive(Debug, Drop)]
pub enum Step {
    /// `select E`: each value becomes the expression at it.
    Select(Expr),
    /// `where E`: the values stay at which the expression is true, and the others become null.
    Keep(Expr),
    /// `shift D`: all times are that many ticks later, or earlier if the number is negative.
    Shift(i64),
    /// `window R N`: at each tick the reducer on the snapshots that have one of the last `width` ticks, each counted once.
    Window { reducer: Reducer, width: i64 },
    /// `join N E`: the expression at the values of the list and of the series of that name, where both have one.
    Join { name: Name, expr: Expr },
}
