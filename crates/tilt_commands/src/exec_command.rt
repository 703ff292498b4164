// The outcome of `exec`.
ghost use Rattle.std.specs.Prelude.{List, ℕ};
ghost use Rattle.tilt_commands.specs.Table.{exec_row};
ghost use Rattle.tilt_load.specs.Does.{Does, reading};
ghost use Rattle.tilt_load.specs.FileCommand.{HasFileTurn};
ghost use Rattle.tilt_printed.specs.Answer.{Fits, comes_to};
ghost use Rattle.tilt_watch.specs.Watch.{Watch};
ghost use Rattle.tilt_cli.specs.Binding.{bindings_of};

use std::alloc::Global;
use tilt_cli::Bind;
use tilt_load::{load_code, load_inputs};
use tilt_outside::Shelf;
use tilt_pipe::{run_pipe, share_rows};
use tilt_printed::{Answered, Printed, WholeText};
use tilt_report::Fault;

/// The outcome of `exec`: the run of the code in a file, on the files that are bound.
pub fn exec<'a, S: Shelf>(
    alloc: Global,
    shelf: &mut S,
    code: &'a str,
    binds: &'a [Bind],
) -> Result<Answered<'a>, Fault<'a>>
    requires { (name : List ℕ)
        → HasFileTurn (exec_row code.now) S.tells (S.files shelf.old) code.now (bindings_of binds.now) name → S.lends name }
    ensures { Does (λ (watchers : List Watch). exec_row code.now) comes_to (Fits ⊥ ⊥ ⊥) code.now (bindings_of binds.now)
        (reading S.tells S.files S.read_faults S.save_faults S.takes S.given shelf.old shelf.new) result }
{
    let code = load_code(alloc, shelf, code)?;
    let rows = load_inputs(alloc, shelf, code.inputs(), binds)?;
    let inputs = share_rows(alloc, rows)?;
    let list = run_pipe(alloc, code, inputs)?;
    Ok(Answered::unsaved(Printed::Whole(WholeText::Snapshots(list))))
}
