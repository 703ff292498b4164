// How the results of a query in units that leave 64 bits are counted.
ghost use Rattle.std.specs.Prelude.{◌≡◌, ℕ, IfErr, IfOk, MatchOption};
ghost use Rattle.tilt_live_app.specs.BeginReport.{report_of_check};
ghost use Rattle.tilt_live_app.specs.Counting.{CountsBy, HasNoWatch, IsMiscounted, IsWatchOf, is_watchable, note_of, watch_options};
ghost use Rattle.tilt_live_cli.specs.Arguments.{command_value};
ghost use Rattle.tilt_serving.specs.Reported.{Reported};

use crate::begin::Begin;
use std::alloc::{AllocError as OutOfMemory, Global};
use tilt_bounds::ReachFault;
use tilt_compiler::{Accepted, accept};
use tilt_live_cli::LiveCommand;
use tilt_live_run::{Display, Keep, RunOptions};
use tilt_outside::Sink;
use tilt_overflows::{WatchError, watch_query};
use tilt_row_text::{RowStyle, Times};
use tilt_unit_check::{CheckFault, check_bounds};

// How results that leave 64 bits are counted.
#[derive(Drop)]
pub(crate) enum Counting {
    // No result can leave 64 bits, or the query is over whole numbers.
    Unneeded,
    // As the rows of this run.
    By(Begin),
    // They aren't.
    Left,
}

// How they are counted for a command, if its query was accepted. The run of the query has these options. A name in a scale or a bound that
// is no input of the query is an error.
pub(crate) fn choose_counting<'a>(
    alloc: Global,
    command: &LiveCommand<'_>,
    accepted: &Accepted,
    options: RunOptions,
) -> Result<Counting, CheckFault<'a>>
    ensures counts { IfOk result (λ counting. CountsBy (command_value command.now) accepted.now.core options counting) }
    ensures fault { IfErr result (λ why. IsMiscounted (command_value command.now) accepted.now.core.inputs (report_of_check why)) }
{
    let Some(scales) = &command.units else {
        return Ok(Counting::Unneeded);
    };
    let Some(bounds) = &command.bounds else {
        return Ok(Counting::Unneeded);
    };
    if !check_bounds(alloc, accepted.core(), scales, bounds)? {
        return Ok(Counting::Unneeded);
    }
    if !is_watchable(command) {
        return Ok(Counting::Left);
    }
    match watch(alloc, accepted, options, !command.plain)? {
        Some(watch) => Ok(Counting::By(watch)),
        None => Ok(Counting::Left),
    }
}

// Whether the run of a command can be watched.
fn is_watchable(command: &LiveCommand<'_>) -> bool
    ensures { result ≡ is_watchable (command_value command.now) }
{
    command.resume.is_none() && command.asked.keys.is_none() && command.folder.is_none()
}

// The run that watches the run of a query with these options, if there can be one.
fn watch(
    alloc: Global,
    accepted: &Accepted,
    options: RunOptions,
    fuse: bool,
) -> Result<Option<Begin>, OutOfMemory>
    ensures { IfOk result (λ watch. MatchOption watch (HasNoWatch accepted.now.core) (λ begin. IsWatchOf accepted.now.core options begin)) }
{
    let core = match watch_query(alloc, accepted.core(), accepted.margins()) {
        Ok(core) => core,
        Err(WatchError::TooLarge) => return Ok(None),
        Err(WatchError::OutOfMemory) => return Err(OutOfMemory),
    };
    match accept(alloc, core, fuse) {
        Ok(accepted) => Ok(Some(Begin {
            accepted,
            options: watch_options(options),
            from: None,
            keep: Keep::Nothing,
        })),
        Err(ReachFault::TooFar { .. }) => Ok(None),
        Err(ReachFault::OutOfMemory) => Err(OutOfMemory),
    }
}

// What is asked of the run that watches a run with these options.
fn watch_options(options: RunOptions) -> RunOptions
    ensures { result ≡ watch_options options }
{
    RunOptions {
        display: Display {
            with_begun: false,
            style: RowStyle {
                times: Times::Ticks,
                decimals: 0,
            },
        },
        strict: options.strict,
        form: options.form,
    }
}

// Reports before the feed that results which leave 64 bits aren't counted, if one can leave them.
pub(crate) fn report_uncounted<E: Sink>(err: &mut E, counting: &Counting)
    requires { (n : ℕ) → E.takes err.old n }
    ensures note { Reported E.tells E.written E.faults err.old err.new (note_of counting.now) }
    ensures takes { (n : ℕ) → E.takes err.new n }
{
    if let Counting::Left = counting {
        // A fault of the sink changes nothing.
        let _ = err.put(b"tilt: 122 results that leave 64 bits aren't counted\n");
    }
}
