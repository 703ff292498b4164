use crate::tree::Tree;
use std::marker::Model;
use tilt_base::{Grid, Span};

/// A definition of a query: an expression, taken on a grid and then restricted to a span. A clause sees it as plain data.
#[derive(Debug, Drop)]
pub struct Def {
    pub body: Tree,
    /// The span outside which the definition is null, or `None` if there is no such span.
    pub over: Option<Span>,
    /// The grid on which the body is taken. Period 1 takes it at each tick.
    pub grid: Grid,
}

impl Model for Def {
    ghost use Rattle.tilt_core.specs.CoreTree.{Definition, coded_definition, tree_of};

    ghost Value = { Definition };

    ghost coded = { coded_definition };

    ghost view = { λ d. record { body = tree_of d.body; over = d.over; grid = d.grid } };
}
