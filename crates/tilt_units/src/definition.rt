use crate::tree::DecimalTree;
use tilt_base::{Grid, Span};

/// A definition of a query in units: an expression, taken on a grid and then restricted to a span.
#[derive(Debug, Drop)]
pub struct DecimalDef {
    pub body: DecimalTree,
    /// The span outside which the definition is null, or `None` if there is no such span.
    pub over: Option<Span>,
    /// The grid on which the body is taken. Period 1 takes it at each tick.
    pub grid: Grid,
}
