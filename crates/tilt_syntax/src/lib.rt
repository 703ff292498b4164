//! The tree of a query's text. Tokens come in, and the query that they are goes out. The clauses of `parse` say which: what goes out is the
//! grammar's one reading of the tokens (`query`, `only`). A rejection gives the first fault, exactly when there is one (`faulty`, `first`).
//! The clauses of `read_text` say the same of a text, which may be of any length. `keep_tokens` keeps no more of its tokens than a text
//! within the limits has, also for readers of other texts. It is an invariant of a `Query` that some tokens read as it. The other way,
//! `print` gives its text, which reads as this query and no other (`text`, `reads_back`). `parse_expression` reads one expression. For
//! readers of other texts of such tokens, `first_statement` cuts off what ends at the first `;`, and the functions of `front` take one
//! token. A caller that has no text makes a query by `Query::new`, and its expressions by `one`, `two` and `choose`.
#![tactic(auto)]

mod atom;
mod clauses;
mod cut;
mod every;
mod expr;
mod expression;
mod fault;
mod front;
mod kept;
mod level;
mod parser;
mod printer;
mod query;
mod reader;
mod statement;
mod text;
mod tree;

pub use clauses::is_end;
pub use cut::first_statement;
pub use every::Every;
pub use expr::Expr;
pub use fault::{SyntaxFault, TextFault};
pub use front::{after_key, after_mark, first_name, first_number, is_mark};
pub use parser::{parse, parse_expression};
pub use printer::print;
pub use query::Query;
pub use statement::Statement;
pub use text::{keep_tokens, read_text};
pub use tilt_base::Span;
pub use tree::{choose, one, two};
