// The outcome of `run`.
ghost use Rattle.std.specs.Prelude.{◌≡◌, ◌↔◌, [], neg_ℤ, None, List, ℕ, length, Ok, IfOk};
ghost use Rattle.tilt_base.specs.declared.limits.TheConstants.{T};
ghost use Rattle.tilt_commands.specs.Query.{IsMadeOfQuery};
ghost use Rattle.tilt_commands.specs.Table.{run_row};
ghost use Rattle.tilt_load.specs.Does.{Does, reading};
ghost use Rattle.tilt_load.specs.FileCommand.{HasFileTurn};
ghost use Rattle.tilt_printed.specs.Answer.{Fits, comes_to};
ghost use Rattle.tilt_printed.specs.Show.{shown_of};
ghost use Rattle.tilt_printed.specs.Text.{IsFresh, IsStreamed, printed_text};
ghost use Rattle.tilt_report.specs.Report.{printed};
ghost use Rattle.tilt_stream.specs.Text.{text_of};
ghost use Rattle.tilt_syntax.specs.Query.{IsQuery};
ghost use Rattle.tilt_types.specs.Checked.{checked};
ghost use Rattle.tilt_watch.specs.Watch.{Watch};
ghost use Rattle.tilt_cli.specs.Binding.{bindings_of};
ghost use Rattle.tilt_cli.specs.Number.{RiseFrom};

use crate::loaded::{LoadedRun, load_run, query_pipe};
use std::alloc::{AllocError as OutOfMemory, Global};
use tilt_cli::Bind;
use tilt_outside::Shelf;
use tilt_printed::{Answered, Printed, WholeText};
use tilt_report::Fault;
use tilt_session::run_cut;

/// How a query is run.
#[derive(Clone, Copy)]
pub struct Manner<'a> {
    /// Whether its definitions are fused.
    pub fuse: bool,
    /// Where the run is cut into sessions, in ticks; the cuts don't fall.
    pub cuts: &'a [i64],
}

/// The outcome of `run`: the query in a file, on the files that are bound. Without cuts a pipe gives it out; with cuts it is made
/// by sessions, and all of it is there before the first write.
pub fn run<'a, S: Shelf>(
    alloc: Global,
    shelf: &mut S,
    query: &'a str,
    binds: &'a [Bind],
    manner: Manner<'_>,
) -> Result<Answered<'a>, Fault<'a>>
    requires lent { (name : List ℕ)
        → HasFileTurn (run_row query.now) S.tells (S.files shelf.old) query.now (bindings_of binds.now) name → S.lends name }
    requires cuts { RiseFrom (neg_ℤ T) T manner.cuts.now }
    ensures { Does (λ (watchers : List Watch). run_row query.now) comes_to (Fits (manner.entry.cuts.now ≡ []) ⊥ ⊥)
        query.now (bindings_of binds.now)
        (reading S.tells S.files S.read_faults S.save_faults S.takes S.given shelf.old shelf.new) result }
{
    let loaded = load_run(alloc, shelf, query, binds, manner.fuse)?;
    let printed = run_printed(alloc, loaded, manner.cuts)?;
    Ok(Answered::unsaved(printed))
}

// What `run` prints of a query on its rows.
fn run_printed(alloc: Global, run: LoadedRun, cuts: &[i64]) -> Result<Printed, OutOfMemory>
    requires valid { IsQuery run.query }
    requires accepted { checked run.query ≡ Ok run.accepted.core }
    requires many { length run.rows.items ≡ length run.accepted.core.inputs }
    requires cuts { RiseFrom (neg_ℤ T) T cuts.now }
    ensures made { IfOk result (λ text. (watchers : List Watch)
        → IsMadeOfQuery (λ list. printed (text_of list)) run.accepted.core run.rows.items (printed (printed_text watchers text))) }
    ensures fresh { IfOk result (λ text. IsFresh text) }
    ensures streamed { IfOk result (λ text. IsStreamed text ↔ (cuts.now ≡ [])) }
    ensures shown { IfOk result (λ text. shown_of text ≡ None) }
{
    let LoadedRun {
        query,
        accepted,
        rows,
    } = run;
    match cuts.split_first() {
        None => Ok(Printed::Run(query_pipe(alloc, &accepted, rows)?)),
        Some((first, later)) => {
            let list = run_cut(alloc, query, &accepted, &rows, *first, later)?;
            Ok(Printed::Whole(WholeText::Snapshots(list)))
        }
    }
}
