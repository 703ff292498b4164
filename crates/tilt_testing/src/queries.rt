// Queries and cores from their text.
ghost use Rattle.std.specs.Prelude.{IfOk};
ghost use Rattle.tilt_syntax.specs.Query.{IsQuery};

use std::alloc::Global;
use std::test::Fail;
use tilt_core::Core;
use tilt_lexer::lex;
use tilt_syntax::{Query, parse};
use tilt_types::check;

/// The query of a text.
pub fn query_of(alloc: Global, text: &str) -> Result<Query, Fail>
    ensures { IfOk result (λ query. IsQuery query) }
{
    let tokens = lex(alloc, text.as_bytes())?;
    Ok(parse(alloc, &tokens)?)
}

/// The core of the query of a text.
pub fn core_of(alloc: Global, text: &str) -> Result<Core, Fail> {
    let query = query_of(alloc, text)?;
    Ok(check(alloc, &query)?)
}
