// The outcome of `fix`.
ghost use Rattle.std.specs.Prelude.{List, ℕ};
ghost use Rattle.tilt_commands.specs.Fixed.{fix_row};
ghost use Rattle.tilt_commands.specs.LastFile.{DoesLast, HasLastTurn};
ghost use Rattle.tilt_load.specs.Does.{reading};
ghost use Rattle.tilt_printed.specs.Answer.{Fits, comes_to};
ghost use Rattle.tilt_cli.specs.Binding.{bindings_of};

use crate::corrected::correct;
use crate::loaded::{LoadedRun, load_run};
use std::alloc::Global;
use tilt_cli::Bind;
use tilt_load::load_edits;
use tilt_outside::Shelf;
use tilt_printed::{Answered, Printed};
use tilt_report::Fault;

/// The outcome of `fix`: the query in a file, with fusion or without, on the files that are bound. Their rows are edited as the edits
/// file says, which is read after all of them. All of it is there before the first write: an edit that is rejected leaves nothing to
/// print.
pub fn fix<'a, S: Shelf>(
    alloc: Global,
    shelf: &mut S,
    query: &'a str,
    binds: &'a [Bind],
    edits: &'a str,
    fuse: bool,
) -> Result<Answered<'a>, Fault<'a>>
    requires { (name : List ℕ)
        → HasLastTurn (fix_row query.now edits.now) (S.files shelf.old) query.now (bindings_of binds.now) edits.now S.tells name
        → S.lends name }
    ensures { DoesLast (fix_row query.now edits.now) comes_to (Fits ⊥ ⊥ ⊥) query.now (bindings_of binds.now) edits.now
        (reading S.tells S.files S.read_faults S.save_faults S.takes S.given shelf.old shelf.new) result }
{
    let loaded = load_run(alloc, shelf, query, binds, fuse)?;
    let edits = load_edits(alloc, shelf, edits, loaded.accepted.core().inputs())?;
    let LoadedRun { accepted, rows, .. } = loaded;
    let text = correct(alloc, accepted, rows, &edits)?;
    Ok(Answered::unsaved(Printed::Whole(text)))
}
