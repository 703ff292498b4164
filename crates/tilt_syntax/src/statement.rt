use crate::every::Every;
use crate::expr::Expr;
use tilt_base::Span;
use tilt_lexer::Name;

/// A statement of a query.
#[derive(Debug, Drop)]
pub enum Statement {
    /// `input name;` declares a stream that is read from a file.
    Input {
        name: Name,
    },
    /// `let name = expr;` defines a stream, with the ticks after `over` and the grid after `every`, if they are
    /// written.
    Let {
        name: Name,
        expr: Expr,
        over: Option<Span>,
        every: Option<Every>,
    },
    /// `emit expr over (start, end];` is what the query gives on these ticks.
    Emit {
        expr: Expr,
        over: Span,
        every: Option<Every>,
    },
}
