// The query of a state.
ghost use Rattle.std.specs.Prelude.{◌≡◌, ◌++◌, List, ℕ, Ok, IfOk, IfErr, MatchResult};
ghost use Rattle.tilt_bounds.specs.Margins.{margins_of};
ghost use Rattle.tilt_checkpoint.specs.Spelling.{query_lines};
ghost use Rattle.tilt_checkpoint.specs.Valid.{IsAccepted};
ghost use Rattle.tilt_live_state.specs.Spelling.{headed};
ghost use Rattle.tilt_syntax.specs.Printing.{query_text};
ghost use Rattle.tilt_syntax.specs.Query.{IsQuery};
ghost use Rattle.tilt_syntax.specs.Tree.{StatementTree};
ghost use Rattle.tilt_types.specs.Checked.{core_of};

use crate::fault::StateFault;
use crate::reader::Reader;
use std::alloc::Global;
use tilt_bounds::{Margins, reach};
use tilt_core::Core;
use tilt_syntax::{Query, read_text};
use tilt_types::check;

// A query that is accepted, its core, and how far it reads.
#[derive(Drop)]
pub(crate) struct Asked {
    pub(crate) query: Query,
    pub(crate) core: Core,
    pub(crate) margins: Margins,
}

// The query of a state, which is accepted. It is the one that is printed after the first line, if one is.
pub(crate) fn read_query(alloc: Global, reader: &mut Reader<'_>) -> Result<Asked, StateFault>
    ensures accepted { IfOk result (λ asked. IsAccepted asked.query) }
    ensures core { IfOk result (λ asked. asked.core ≡ core_of asked.query) }
    ensures margins { IfOk result (λ asked. margins_of asked.core ≡ Ok asked.margins) }
    ensures only { (query : List StatementTree) (more : List ℕ) → IsAccepted query → reader.old ≡ headed query more
        → MatchResult result (λ asked. (asked.query ≡ query) × (reader.new ≡ more)) (λ fault. fault ≡ StateFault.OutOfMemory) }
{
    match reader.heading() {
        Some((_, text)) => asked_of(alloc, text),
        None => Err(StateFault::NotAState),
    }
}

// The query that a text reads as.
fn asked_of(alloc: Global, text: &[u8]) -> Result<Asked, StateFault>
    ensures accepted { IfOk result (λ asked. IsAccepted asked.query) }
    ensures core { IfOk result (λ asked. asked.core ≡ core_of asked.query) }
    ensures margins { IfOk result (λ asked. margins_of asked.core ≡ Ok asked.margins) }
    ensures only { (query : List StatementTree) → IsAccepted query → text.now ≡ query_text query
        → MatchResult result (λ asked. asked.query ≡ query) (λ fault. fault ≡ StateFault.OutOfMemory) }
{
    let query = query_of(alloc, text)?;
    let (core, margins) = core_and_margins(alloc, &query)?;
    Ok(Asked {
        query,
        core,
        margins,
    })
}

// The query that a text reads as.
fn query_of(alloc: Global, text: &[u8]) -> Result<Query, StateFault>
    ensures found { IfOk result (λ query. IsQuery query) }
    ensures only { (query : List StatementTree) → IsQuery query → text.now ≡ query_text query
        → MatchResult result (λ found. found ≡ query) (λ fault. fault ≡ StateFault.OutOfMemory) }
{
    let query = read_text(alloc, text)?;
    Ok(query)
}

// The core and the margins of the query, if it is accepted.
fn core_and_margins(alloc: Global, query: &Query) -> Result<(Core, Margins), StateFault>
    ensures found { IfOk result (λ found. IsAccepted query.now) }
    ensures core { IfOk result (λ found. found.0 ≡ core_of query.now) }
    ensures margins { IfOk result (λ found. margins_of found.0 ≡ Ok found.1) }
    ensures only { IsAccepted query.now → IfErr result (λ fault. fault ≡ StateFault.OutOfMemory) }
{
    // That some text reads as the query is known from here on.
    let _parsed = query.statements();
    let core = check(alloc, query)?;
    let margins = reach(alloc, &core)?;
    Ok((core, margins))
}
