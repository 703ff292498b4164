// A text of which watchers see each row once its line was written.
ghost use Rattle.std.specs.Prelude.{◌≡◌, length, IfErr, IfOk, MatchResult};
ghost use Rattle.tilt_code.specs.Run.{run_of};
ghost use Rattle.tilt_pipe.specs.Value.{pipe_after};
ghost use Rattle.tilt_printed.specs.Figures.{watched_text};
ghost use Rattle.tilt_printed.specs.Left.{left_of};
ghost use Rattle.tilt_printed.specs.Prints.{Prints};
ghost use Rattle.tilt_printed.specs.Show.{HaveSeen, HaveSeenInPart, HaveSeenLines};
ghost use Rattle.tilt_stream.specs.Text.{lines_of};
ghost use Rattle.tilt_watch.specs.Places.{AreInStep, left_after, places_after};
ghost use Rattle.tilt_watch.specs.Watch.{rows_of, watches};

use crate::unput::Unput;
use std::alloc::Global;
use tilt_outside::Sink;
use tilt_pipe::Pipe;
use tilt_series::{put_header, put_snap};
use tilt_watch::{Panel, Watcher, put_figures, show_snap};

// Writes the text of the snapshots that the pipe gives out, and then the figures of all watchers. The watchers see each row once its line
// was written. Memory for their places is taken before the first write.
pub(crate) fn put_watched<O: Sink>(
    alloc: Global,
    out: &mut O,
    pipe: Pipe,
    watchers: &mut Vec<Box<dyn Watcher>>,
) -> Result<(), Unput>
    requires fresh { pipe ≡ pipe_after pipe.code pipe.inputs 0 }
    requires room { O.takes out.old (length (watched_text (watches pair step ends watchers.old.items) (run_of pipe.code pipe.inputs))) }
    ensures prints { Prints O.tells O.written O.faults O.takes out.old out.new
        (watched_text (watches pair step ends watchers.old.items) (run_of pipe.code pipe.inputs)) result }
    ensures seen { MatchResult result
        (λ _. HaveSeen (left_of O.tells O.written out.old out.new pair step ends watchers.old watchers.new) (run_of pipe.code pipe.inputs))
        (λ why. HaveSeenInPart why (left_of O.tells O.written out.old out.new pair step ends watchers.old watchers.new)
        (run_of pipe.code pipe.inputs)) }
{
    let mut panel = Panel::new(alloc, watchers)?;
    put_header(out)?;
    put_seen_lines(out, pipe, &mut panel, watchers)?;
    put_figures(out, &panel)?;
    Ok(())
}

// Writes the lines of the snapshots that the pipe gives out, each of which the watchers see then.
fn put_seen_lines<O: Sink>(
    out: &mut O,
    pipe: Pipe,
    panel: &mut Panel,
    watchers: &mut Vec<Box<dyn Watcher>>,
) -> Result<(), Unput>
    requires fresh { pipe ≡ pipe_after pipe.code pipe.inputs 0 }
    requires room { O.takes out.old (length (lines_of (run_of pipe.code pipe.inputs))) }
    requires in_step { AreInStep panel.old (watches pair step ends watchers.old.items) }
    ensures prints { Prints O.tells O.written O.faults O.takes out.old out.new (lines_of (run_of pipe.code pipe.inputs)) result }
    ensures places { IfOk result (λ _. panel.new
        ≡ places_after panel.old (watches pair step ends watchers.old.items) (rows_of (run_of pipe.code pipe.inputs))) }
    ensures left { IfOk result (λ _. watches pair step ends watchers.new.items
        ≡ left_after (watches pair step ends watchers.old.items) (rows_of (run_of pipe.code pipe.inputs))) }
    ensures seen { IfErr result (λ why. HaveSeenLines why
        (left_of O.tells O.written out.old out.new pair step ends watchers.old watchers.new) (run_of pipe.code pipe.inputs)) }
{
    let mut pipe = pipe;
    while let Some(snap) = pipe.next()? {
        put_snap(out, &snap)?;
        show_snap(watchers, panel, &snap);
    }
    Ok(())
}
