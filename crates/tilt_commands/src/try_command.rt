// The outcome of `try`.
ghost use Rattle.std.specs.Prelude.{◌≡◌, ◌≤◌, List, length, IfOk, IfErr};
ghost use Rattle.tilt_commands.specs.Table.{IsTryOutcome, made_inputs};
ghost use Rattle.tilt_load.specs.QueryFile.{TakesQuery};
ghost use Rattle.tilt_made.specs.TryQuery.{query_text};
ghost use Rattle.tilt_printed.specs.Answer.{Fits, comes_to};
ghost use Rattle.tilt_report.specs.Report.{out_of_memory, report_of};
ghost use Rattle.tilt_watch.specs.Watch.{Watch};

use crate::loaded::run_whole;
use std::alloc::{AllocError as OutOfMemory, Global};
use tilt_load::{LoadedQuery, read_query};
use tilt_made::{made_rows, query_text, summary};
use tilt_printed::{Answered, Printed, WholeText};
use tilt_report::Fault;
use tilt_stream::Rows;

/// The outcome of `try`: the summary of what its query gives, with fusion, on `count` rows from the seed for each input. It reads nothing.
pub fn try_<'a>(alloc: Global, seed: u32, count: u32) -> Result<Answered<'a>, Fault<'a>>
    requires { count ≤ 1000000 }
    ensures made { IfOk result (λ answer. (watchers : List Watch) → IsTryOutcome seed count (comes_to watchers answer)) }
    ensures fits { IfOk result (λ answer. Fits ⊥ ⊥ ⊥ answer) }
    ensures fault { IfErr result (λ fault. report_of fault ≡ out_of_memory) }
{
    let loaded = made_query(alloc, count)?;
    let rows = made_inputs(alloc, seed, count)?;
    let list = run_whole(alloc, &loaded.accepted, rows)?;
    let text = summary(alloc, count, &list)?;
    Ok(Answered::unsaved(Printed::Whole(WholeText::Text(text))))
}

// The query of a made run.
fn made_query<'a>(alloc: Global, count: u32) -> Result<LoadedQuery, Fault<'a>>
    requires { count ≤ 1000000 }
    ensures taken { IfOk result (λ query. TakesQuery (query_text count) query.accepted.core) }
    ensures inputs { IfOk result (λ query. length query.accepted.core.inputs ≡ 2) }
    ensures fault { IfErr result (λ fault. report_of fault ≡ out_of_memory) }
{
    let text = query_text(alloc, count)?;
    read_query(alloc, &text, true)
}

// The rows of its two inputs.
fn made_inputs(alloc: Global, seed: u32, count: u32) -> Result<Vec<Rows>, OutOfMemory>
    requires { count ≤ 1000000 }
    ensures { IfOk result (λ rows. rows.items ≡ made_inputs seed count) }
{
    let (a, b) = made_rows(alloc, seed, count)?;
    let mut rows = Vec::new(alloc);
    rows.push(a)?;
    rows.push(b)?;
    Ok(rows)
}
