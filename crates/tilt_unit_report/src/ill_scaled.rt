// The first statement of which a node can leave 64 bits.
ghost use Rattle.std.specs.Prelude.{◌≡◌, map};
ghost use Rattle.tilt_syntax.specs.Tree.{statement_tree};
ghost use Rattle.tilt_unit_text.specs.Units.{statement_of};

use tilt_magnitudes::WideInterval;
use tilt_syntax::{Query, Statement};

/// A node of the query can leave 64 bits. It is the first such node: definitions are in order, and operands come before their operator.
#[derive(Clone, Copy, Debug, PartialEq, Eq)]
pub struct IllScaled {
    /// The number of its definition, counted from 0. The last definition is emitted.
    pub definition: u32,
    /// The number of its statement, counted from 1.
    pub statement: usize,
    /// The exact interval of the node, which 64 bits don't hold.
    pub bounds: WideInterval,
}

// The number of the statement, counted from 1, that is the definition with this number, counted from 0.
pub(crate) fn statement_of(query: &Query, definition: u32) -> usize
    ensures { result ≡ statement_of 1 query.now definition }
{
    statement_among(query.statements(), definition)
}

// The same of statements.
fn statement_among(statements: &[Statement], definition: u32) -> usize
    ensures { result ≡ statement_of 1 (map statement_tree statements.now) definition }
{
    let mut before = definition;
    for at in 0..statements.len() {
        match &statements[at] {
            Statement::Input { .. } => {}
            Statement::Let { .. } | Statement::Emit { .. } if before == 0 => return at + 1,
            Statement::Let { .. } | Statement::Emit { .. } => before -= 1,
        }
    }
    statements.len() + 1
}
