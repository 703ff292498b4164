// The outcome of `explain`.
ghost use Rattle.std.specs.Prelude.{[], List, ℕ};
ghost use Rattle.tilt_commands.specs.Table.{explain_row};
ghost use Rattle.tilt_load.specs.Does.{Does, reading};
ghost use Rattle.tilt_load.specs.FileCommand.{HasFileTurn};
ghost use Rattle.tilt_printed.specs.Answer.{Fits, comes_to};
ghost use Rattle.tilt_watch.specs.Watch.{Watch};

use std::alloc::Global;
use tilt_explain::explain_text;
use tilt_load::load_query;
use tilt_outside::Shelf;
use tilt_printed::{Answered, Printed, WholeText};
use tilt_report::Fault;

/// The outcome of `explain`: the look-back and look-ahead of the query in a file, which of its definitions are used and merged,
/// and how many loops it has. No series is read.
pub fn explain<'a, S: Shelf>(
    alloc: Global,
    shelf: &mut S,
    query: &'a str,
) -> Result<Answered<'a>, Fault<'a>>
    requires { (name : List ℕ)
        → HasFileTurn (explain_row query.now) S.tells (S.files shelf.old) query.now [] name → S.lends name }
    ensures { Does (λ (watchers : List Watch). explain_row query.now) comes_to (Fits ⊥ ⊥ ⊥) query.now []
        (reading S.tells S.files S.read_faults S.save_faults S.takes S.given shelf.old shelf.new) result }
{
    let loaded = load_query(alloc, shelf, query, true)?;
    let lines = explain_text(alloc, loaded.accepted.core(), loaded.accepted.margins())?;
    Ok(Answered::unsaved(Printed::Whole(WholeText::Text(lines))))
}
