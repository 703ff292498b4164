// The query in a file with the rows of its inputs.
ghost use Rattle.std.specs.Prelude.{◌≡◌, [], List, ℕ, Some, length, IfOk};
ghost use Rattle.tilt_code.specs.Run.{run_of};
ghost use Rattle.tilt_commands.specs.Loaded.{Loads, refusing_row};
ghost use Rattle.tilt_compiler.specs.Compiled.{IsCodeOf};
ghost use Rattle.tilt_core.specs.Meaning.{output_of};
ghost use Rattle.tilt_load.specs.Does.{reading};
ghost use Rattle.tilt_load.specs.FileCommand.{HasFileTurn};
ghost use Rattle.tilt_pipe.specs.Value.{pipe_after};
ghost use Rattle.tilt_cli.specs.Binding.{bindings_of};

use std::alloc::{AllocError as OutOfMemory, Global};
use tilt_cli::Bind;
use tilt_compiler::Accepted;
use tilt_load::{LoadedQuery, load_inputs, load_query};
use tilt_outside::Shelf;
use tilt_pipe::{Pipe, run_pipe, share_rows};
use tilt_report::Fault;
use tilt_stream::{Rows, SnapList};
use tilt_syntax::Query;

// A query that was accepted, and the rows of its inputs, one list for each.
#[derive(Drop)]
pub(crate) struct LoadedRun {
    pub(crate) query: Query,
    pub(crate) accepted: Accepted,
    pub(crate) rows: Vec<Rows>,
}

// The query in a file, with fusion or without, and the rows of its inputs in the files that are bound.
pub(crate) fn load_run<'a, S: Shelf>(
    alloc: Global,
    shelf: &mut S,
    query: &'a str,
    binds: &'a [Bind],
    fuse: bool,
) -> Result<LoadedRun, Fault<'a>>
    requires { (name : List ℕ)
        → HasFileTurn (refusing_row query.now) S.tells (S.files shelf.old) query.now (bindings_of binds.now) name → S.lends name }
    ensures loads { Loads query.now (bindings_of binds.now)
        (reading S.tells S.files S.read_faults S.save_faults S.takes S.given shelf.old shelf.new) result }
    ensures fuse { IfOk result (λ run. run.accepted.fuse ≡ fuse) }
{
    let loaded = load_query(alloc, shelf, query, fuse)?;
    let rows = load_inputs(alloc, shelf, loaded.accepted.core().inputs(), binds)?;
    let LoadedQuery { query, accepted } = loaded;
    Ok(LoadedRun {
        query,
        accepted,
        rows,
    })
}

// The snapshots of what a query means on its rows.
pub(crate) fn run_whole(
    alloc: Global,
    accepted: &Accepted,
    rows: Vec<Rows>,
) -> Result<SnapList, OutOfMemory>
    requires { length rows.items ≡ length accepted.now.core.inputs }
    ensures { IfOk result (λ list. output_of accepted.now.core rows.items ≡ Some list) }
{
    let code = accepted.code(alloc)?;
    run_pipe(alloc, code, share_rows(alloc, rows)?)
}

// The pipe of what a query means on its rows.
pub(crate) fn query_pipe(
    alloc: Global,
    accepted: &Accepted,
    rows: Vec<Rows>,
) -> Result<Pipe, OutOfMemory>
    requires { length rows.items ≡ length accepted.now.core.inputs }
    ensures code { IfOk result (λ pipe. IsCodeOf accepted.now.core accepted.now.fuse pipe.code) }
    ensures inputs { IfOk result (λ pipe. pipe.inputs ≡ rows.items) }
    ensures means { IfOk result (λ pipe. output_of accepted.now.core rows.items ≡ Some (run_of pipe.code pipe.inputs)) }
    ensures fresh { IfOk result (λ pipe. pipe ≡ pipe_after pipe.code pipe.inputs 0) }
{
    let code = accepted.code(alloc)?;
    Pipe::new(alloc, code, share_rows(alloc, rows)?)
}
