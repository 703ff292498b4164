// The outcome of `compile`.
ghost use Rattle.std.specs.Prelude.{[], List, ℕ};
ghost use Rattle.tilt_commands.specs.Table.{compile_row};
ghost use Rattle.tilt_load.specs.Does.{Does, reading};
ghost use Rattle.tilt_load.specs.FileCommand.{HasFileTurn};
ghost use Rattle.tilt_printed.specs.Answer.{Fits, comes_to};
ghost use Rattle.tilt_watch.specs.Watch.{Watch};

use std::alloc::Global;
use tilt_code::list;
use tilt_load::load_query;
use tilt_outside::Shelf;
use tilt_printed::{Answered, Printed, WholeText};
use tilt_report::Fault;

/// The outcome of `compile`: the listing of the code of the query in a file, with fusion or without. No series is read.
pub fn compile<'a, S: Shelf>(
    alloc: Global,
    shelf: &mut S,
    query: &'a str,
    fuse: bool,
) -> Result<Answered<'a>, Fault<'a>>
    requires { (name : List ℕ)
        → HasFileTurn (compile_row query.now fuse) S.tells (S.files shelf.old) query.now [] name → S.lends name }
    ensures { Does (λ (watchers : List Watch). compile_row query.now fuse) comes_to (Fits ⊥ ⊥ ⊥) query.now []
        (reading S.tells S.files S.read_faults S.save_faults S.takes S.given shelf.old shelf.new) result }
{
    let loaded = load_query(alloc, shelf, query, fuse)?;
    let code = loaded.accepted.code(alloc)?;
    let listing = list(alloc, &code)?;
    Ok(Answered::unsaved(Printed::Whole(WholeText::Text(listing))))
}
