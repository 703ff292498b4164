// The outcome of `flow`.
ghost use Rattle.std.specs.Prelude.{⊤, List, ℕ};
ghost use Rattle.tilt_commands.specs.Table.{flow_row};
ghost use Rattle.tilt_load.specs.Does.{Does, reading};
ghost use Rattle.tilt_load.specs.FileCommand.{HasFileTurn};
ghost use Rattle.tilt_printed.specs.Answer.{Fits, comes_to};
ghost use Rattle.tilt_watch.specs.Watch.{Watch};
ghost use Rattle.tilt_cli.specs.Binding.{bindings_of};

use crate::loaded::query_pipe;
use std::alloc::Global;
use tilt_cli::Bind;
use tilt_load::{load_flow, load_inputs};
use tilt_outside::Shelf;
use tilt_printed::{Answered, Printed};
use tilt_report::Fault;

/// The outcome of `flow`: the pipeline in a file, on the files that are bound. It prints what the pipeline gives by lists; the
/// pipeline's query is run, with fusion or without, and a pipe gives it out.
pub fn flow<'a, S: Shelf>(
    alloc: Global,
    shelf: &mut S,
    file: &'a str,
    binds: &'a [Bind],
    fuse: bool,
) -> Result<Answered<'a>, Fault<'a>>
    requires { (name : List ℕ)
        → HasFileTurn (flow_row file.now) S.tells (S.files shelf.old) file.now (bindings_of binds.now) name → S.lends name }
    ensures { Does (λ (watchers : List Watch). flow_row file.now) comes_to (Fits ⊤ ⊥ ⊥) file.now (bindings_of binds.now)
        (reading S.tells S.files S.read_faults S.save_faults S.takes S.given shelf.old shelf.new) result }
{
    let loaded = load_flow(alloc, shelf, file, fuse)?;
    let rows = load_inputs(alloc, shelf, loaded.accepted.core().inputs(), binds)?;
    let pipe = query_pipe(alloc, &loaded.accepted, rows)?;
    Ok(Answered::unsaved(Printed::Run(pipe)))
}
