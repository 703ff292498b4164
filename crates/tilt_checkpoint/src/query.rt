// The query of a checkpoint, read.
ghost use Rattle.std.specs.Prelude.{◌≡◌, ◌↔◌, ◌++◌, List, ℕ, Ok, length, IsTrue, IfOk, IfErr, MatchResult};
ghost use Rattle.tilt_bounds.specs.Margins.{margins_of};
ghost use Rattle.tilt_checkpoint.specs.Spelling.{query_lines};
ghost use Rattle.tilt_checkpoint.specs.Valid.{IsAccepted};
ghost use Rattle.tilt_syntax.specs.Printing.{query_text};
ghost use Rattle.tilt_syntax.specs.Query.{IsQuery};
ghost use Rattle.tilt_syntax.specs.Tree.{StatementTree};
ghost use Rattle.tilt_types.specs.Checked.{core_of};

use crate::fault::CheckpointFault;
use crate::reader::Reader;
use std::alloc::{AllocError as OutOfMemory, Global};
use tilt_bounds::{Margins, reach};
use tilt_core::Core;
use tilt_syntax::{Query, print, read_text};
use tilt_types::check;

// A query that is accepted, its core and its margins.
#[derive(Drop)]
pub(crate) struct Asked {
    pub(crate) query: Query,
    pub(crate) core: Core,
    pub(crate) margins: Margins,
}

// The query of a checkpoint, after its first line.
pub(crate) fn read_query(alloc: Global, reader: &mut Reader<'_>) -> Result<Asked, CheckpointFault>
    ensures found { IfOk result (λ asked. IsAccepted asked.query × (reader.old ≡ query_lines asked.query ++ reader.new)) }
    ensures core { IfOk result (λ asked. asked.core ≡ core_of asked.query) }
    ensures margins { IfOk result (λ asked. margins_of asked.core ≡ Ok asked.margins) }
    ensures only { (query : List StatementTree) (more : List ℕ) → IsAccepted query → reader.old ≡ query_lines query ++ more
        → MatchResult result (λ asked. (asked.query ≡ query) × (reader.new ≡ more)) (λ fault. fault ≡ CheckpointFault.OutOfMemory) }
{
    match reader.query_lines() {
        Some((count, text)) => asked_of(alloc, count, text),
        None => Err(CheckpointFault::BadCheckpoint),
    }
}

// The query of this number of statements of which the text is the printing.
fn asked_of(alloc: Global, count: u64, text: &[u8]) -> Result<Asked, CheckpointFault>
    ensures found { IfOk result (λ asked. IsAccepted asked.query × (length asked.query ≡ count) × (text.now ≡ query_text asked.query)) }
    ensures core { IfOk result (λ asked. asked.core ≡ core_of asked.query) }
    ensures margins { IfOk result (λ asked. margins_of asked.core ≡ Ok asked.margins) }
    ensures only { (query : List StatementTree) → IsAccepted query → length query ≡ count → text.now ≡ query_text query
        → MatchResult result (λ asked. asked.query ≡ query) (λ fault. fault ≡ CheckpointFault.OutOfMemory) }
{
    let query = query_of(alloc, text)?;
    if query.statements().len() as u64 != count || !is_printing(alloc, text, &query)? {
        return Err(CheckpointFault::BadCheckpoint);
    }
    let (core, margins) = core_and_margins(alloc, &query)?;
    Ok(Asked {
        query,
        core,
        margins,
    })
}

// The query that a text reads as.
fn query_of(alloc: Global, text: &[u8]) -> Result<Query, CheckpointFault>
    ensures found { IfOk result (λ query. IsQuery query) }
    ensures only { (query : List StatementTree) → IsQuery query → text.now ≡ query_text query
        → MatchResult result (λ found. found ≡ query) (λ fault. fault ≡ CheckpointFault.OutOfMemory) }
{
    let query = read_text(alloc, text)?;
    Ok(query)
}

// Whether the text is the printing of the query.
fn is_printing(alloc: Global, text: &[u8], query: &Query) -> Result<bool, OutOfMemory>
    ensures { IfOk result (λ same. IsTrue same ↔ (text.now ≡ query_text query.now)) }
{
    let printed = print(alloc, query)?;
    Ok(text == printed.as_slice())
}

// The core and the margins of the query, if it is accepted.
fn core_and_margins(alloc: Global, query: &Query) -> Result<(Core, Margins), CheckpointFault>
    ensures found { IfOk result (λ found. IsAccepted query.now) }
    ensures core { IfOk result (λ found. found.0 ≡ core_of query.now) }
    ensures margins { IfOk result (λ found. margins_of found.0 ≡ Ok found.1) }
    ensures only { IsAccepted query.now → IfErr result (λ fault. fault ≡ CheckpointFault.OutOfMemory) }
{
    // That some text reads as the query is known from here on.
    let _parsed = query.statements();
    let core = check(alloc, query)?;
    let margins = reach(alloc, &core)?;
    Ok((core, margins))
}
