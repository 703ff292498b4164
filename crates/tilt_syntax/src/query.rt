// A query that was parsed.
ghost use Rattle.std.specs.Prelude.{◌≡◌, map};
ghost use Rattle.tilt_syntax.specs.Query.{IsQuery};
ghost use Rattle.tilt_syntax.specs.Tree.{statement_tree};

use crate::statement::Statement;
use std::marker::Model;

/// A query: statements in order that some text reads as. A clause sees it as the list of their trees.
#[derive(Debug, Drop)]
pub struct Query {
    statements: Vec<Statement>,
}

impl Model for Query {
    ghost use Rattle.std.specs.Prelude.{List, map};
    ghost use Rattle.tilt_syntax.specs.Tree.{StatementTree, statement_tree};
    ghost use Rattle.tilt_syntax.specs.Stored.{coded_query};
    ghost use Rattle.tilt_syntax.specs.Query.{IsQuery};

    ghost Value = { List StatementTree };

    ghost coded = { coded_query };

    ghost view = { λ q. map statement_tree q.statements.items };

    ghost invariant = { λ q. IsQuery (map statement_tree q.statements.items) };
}

impl Query {
    /// The query of these statements, which some tokens read as.
    pub fn new(statements: Vec<Statement>) -> Query
        requires { IsQuery (map statement_tree statements.items) }
        ensures { result ≡ map statement_tree statements.items }
    {
        Query { statements }
    }

    /// The statements, in order.
    pub fn statements(&self) -> &[Statement]
        ensures trees { map statement_tree result.now ≡ self.now }
        ensures parsed { IsQuery self.now }
    {
        &self.statements
    }
}
