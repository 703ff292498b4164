// The outcome of `pipe`.
ghost use Rattle.std.specs.Prelude.{⊤, List, ℕ};
ghost use Rattle.tilt_commands.specs.Table.{pipe_row};
ghost use Rattle.tilt_load.specs.Does.{Does, reading};
ghost use Rattle.tilt_load.specs.FileCommand.{HasFileTurn};
ghost use Rattle.tilt_printed.specs.Answer.{Fits, comes_to};
ghost use Rattle.tilt_watch.specs.Watch.{Watch};
ghost use Rattle.tilt_cli.specs.Binding.{bindings_of};

use crate::loaded::{LoadedRun, load_run, query_pipe};
use std::alloc::Global;
use tilt_cli::Bind;
use tilt_outside::Shelf;
use tilt_printed::{Answered, Printed};
use tilt_report::Fault;

/// The outcome of `pipe`: the query in a file, with fusion or without, on the files that are bound. A pipe gives it out.
pub fn pipe<'a, S: Shelf>(
    alloc: Global,
    shelf: &mut S,
    query: &'a str,
    binds: &'a [Bind],
    fuse: bool,
) -> Result<Answered<'a>, Fault<'a>>
    requires { (name : List ℕ)
        → HasFileTurn (pipe_row query.now fuse) S.tells (S.files shelf.old) query.now (bindings_of binds.now) name → S.lends name }
    ensures { Does (λ (watchers : List Watch). pipe_row query.now fuse) comes_to (Fits ⊤ ⊥ ⊥) query.now (bindings_of binds.now)
        (reading S.tells S.files S.read_faults S.save_faults S.takes S.given shelf.old shelf.new) result }
{
    let loaded = load_run(alloc, shelf, query, binds, fuse)?;
    let LoadedRun { accepted, rows, .. } = loaded;
    let pipe = query_pipe(alloc, &accepted, rows)?;
    Ok(Answered::unsaved(Printed::Rings(pipe)))
}
