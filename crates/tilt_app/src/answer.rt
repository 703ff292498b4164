// What a command prints and saves.
ghost use Rattle.std.specs.Prelude.{◌≡◌, List, ℕ, Some, IfOk};
ghost use Rattle.tilt_app.specs.Answered.{IsAnswered};
ghost use Rattle.tilt_app.specs.Continued.{Continues};
ghost use Rattle.tilt_app.specs.Outcome.{HasRowTurn};
ghost use Rattle.tilt_commands.specs.Table.{row_of};
ghost use Rattle.tilt_load.specs.Does.{reading};
ghost use Rattle.tilt_printed.specs.Answer.{comes_to};
ghost use Rattle.tilt_commands.specs.SavedCut.{ending_of};
ghost use Rattle.tilt_watch.specs.Watch.{Watch};
ghost use Rattle.tilt_cli.specs.Command.{IsWithin, command_of};
ghost use Rattle.tilt_cli.specs.Upto.{upto_of};

use std::alloc::Global;
use tilt_cli::{Command, Upto};
use tilt_commands::{
    Division, Manner, SavedCut, compile, exec, explain, fix, flow, parts, pipe, resume_session,
    run, start_session, try_, watch,
};
use tilt_outside::Shelf;
use tilt_printed::Answered;
use tilt_report::Fault;

/// What the command prints and saves. All files are read here. Memory is taken later only if snapshots are written as they are made: by
/// the pipe that makes them, and for the watchers.
pub(crate) fn answer<'a, S: Shelf>(
    alloc: Global,
    command: &'a Command,
    shelf: &mut S,
) -> Result<Answered<'a>, Fault<'a>>
    requires lent { (watchers : List Watch) (name : List ℕ)
        → HasRowTurn S.tells (S.files shelf.old) watchers (row_of (command_of command.now)) name → S.lends name }
    requires within { IsWithin (command_of command.now) }
    ensures does { IsAnswered (command_of command.now)
        (reading S.tells S.files S.read_faults S.save_faults S.takes S.given shelf.old shelf.new) result }
    ensures continues { S.tells → IfOk result (λ answer. (watchers : List Watch)
        → Continues (S.files shelf.old) (command_of command.now) (comes_to watchers answer)) }
{
    let fuse = !command.is_plain();
    match command {
        Command::Run {
            query,
            binds,
            cuts,
            ..
        } => run(alloc, shelf, query, binds, manner(fuse, cuts)),
        Command::Compile { query, .. } => compile(alloc, shelf, query, fuse),
        Command::Exec { code, binds } => exec(alloc, shelf, code, binds),
        Command::Explain { query } => explain(alloc, shelf, query),
        Command::Pipe { query, binds, .. } => pipe(alloc, shelf, query, binds, fuse),
        Command::Watch { query, binds, .. } => watch(alloc, shelf, query, binds, fuse),
        Command::Parts {
            query,
            binds,
            at,
            order,
            ..
        } => parts(alloc, shelf, query, binds, division(fuse, at, order)),
        Command::Flow {
            flow: file,
            binds,
            ..
        } => flow(alloc, shelf, file, binds, fuse),
        Command::Fix {
            query,
            binds,
            edits,
            ..
        } => fix(alloc, shelf, query, binds, edits, fuse),
        Command::Try { seed, count } => try_(alloc, *seed, *count),
        Command::Start {
            query,
            binds,
            upto,
            save,
            ..
        } => start_session(alloc, shelf, query, binds, fuse, cut(upto, save)),
        Command::ResumeUpto {
            file,
            binds,
            upto,
            save,
            ..
        } => resume_session(alloc, shelf, file, binds, fuse, ending(upto, save)),
        Command::ResumeEnd { file, binds, .. } => {
            resume_session(alloc, shelf, file, binds, fuse, None)
        }
    }
}

// How a query is run.
fn manner(fuse: bool, cuts: &[i64]) -> Manner<'_>
    ensures fuse { result.fuse ≡ fuse }
    ensures cuts { result.cuts.now ≡ cuts.now }
{
    Manner { fuse, cuts }
}

// How a query is run in parts.
fn division<'a>(fuse: bool, cuts: &'a [i64], order: &'a [u32]) -> Division<'a>
    ensures fuse { result.fuse ≡ fuse }
    ensures cuts { result.cuts.now ≡ cuts.now }
    ensures order { result.order.now ≡ order.now }
{
    Division { fuse, cuts, order }
}

// Where a session ends, and the name under which it saves.
fn cut<'a>(upto: &'a Upto, save: &'a str) -> SavedCut<'a>
    ensures upto { result.upto.now ≡ upto.now }
    ensures save { result.save.now ≡ save.now }
{
    SavedCut { upto, save }
}

// The same of a session that may end with the last row, as this one doesn't.
fn ending<'a>(upto: &'a Upto, save: &'a str) -> Option<SavedCut<'a>>
    ensures { ending_of result ≡ Some (record { upto = upto_of upto.now; save = save.now }) }
{
    Some(SavedCut { upto, save })
}
