// What is printed, and how.
ghost use Rattle.std.specs.Prelude.{◌≡◌, length, IfErr, OnOk};
ghost use Rattle.tilt_printed.specs.Left.{left_of};
ghost use Rattle.tilt_printed.specs.Prints.{Prints};
ghost use Rattle.tilt_printed.specs.Show.{SeeWhatIsPut, shown_of};
ghost use Rattle.tilt_printed.specs.Text.{IsFresh, IsStreamed, printed_text, whole_text};
ghost use Rattle.tilt_printed.specs.declared.unput.Unput.TheVariants.{OutOfMemory};
ghost use Rattle.tilt_watch.specs.Watch.{watches};

use crate::streamed::{put_rings, put_run};
use crate::unput::Unput;
use crate::watched::put_watched;
use crate::whole_text::WholeText;
use std::alloc::Global;
use tilt_outside::Sink;
use tilt_pipe::Pipe;
use tilt_watch::Watcher;

/// What a command prints.
#[derive(Drop)]
pub enum Printed {
    /// This text.
    Whole(WholeText),
    /// The text of the snapshots that a pipe gives out, each of which is made between writes.
    Run(Pipe),
    /// The same, and then the line of the most snapshots that its rings held.
    Rings(Pipe),
    /// The same text, of which the watchers see each row once its line was written, and then the figures of each of them.
    Watched(Pipe),
}

impl Printed {
    /// Writes the text, lets the watchers see what they are to see of it, drops those that have seen enough, and hands all of it on. It
    /// returns `Failed` if a write or the flush failed. It returns `OutOfMemory` only for a pipe, if there is no memory for its next
    /// snapshot or for the places of those who watch. After an error, a prefix of the text was written.
    pub fn put<O: Sink>(
        self,
        alloc: Global,
        out: &mut O,
        watchers: &mut Vec<Box<dyn Watcher>>,
    ) -> Result<(), Unput>
        requires fresh { IsFresh self }
        requires room { O.takes out.old (length (printed_text (watches pair step ends watchers.old.items) self)) }
        ensures prints { Prints O.tells O.written O.faults O.takes out.old out.new
            (printed_text (watches pair step ends watchers.old.items) self) result }
        ensures handed_on { OnOk result (O.held_back out.new ≡ 0) }
        ensures streamed { IfErr result (λ unput. unput ≡ OutOfMemory → IsStreamed self) }
        ensures seen { SeeWhatIsPut (left_of O.tells O.written out.old out.new pair step ends watchers.old watchers.new)
            (shown_of self) result }
    {
        self.put_all(alloc, out, watchers)?;
        out.flush()?;
        Ok(())
    }

    // Writes the text.
    fn put_all<O: Sink>(
        self,
        alloc: Global,
        out: &mut O,
        watchers: &mut Vec<Box<dyn Watcher>>,
    ) -> Result<(), Unput>
        requires fresh { IsFresh self }
        requires room { O.takes out.old (length (printed_text (watches pair step ends watchers.old.items) self)) }
        ensures prints { Prints O.tells O.written O.faults O.takes out.old out.new
            (printed_text (watches pair step ends watchers.old.items) self) result }
        ensures streamed { IfErr result (λ unput. unput ≡ OutOfMemory → IsStreamed self) }
        ensures seen { SeeWhatIsPut (left_of O.tells O.written out.old out.new pair step ends watchers.old watchers.new)
            (shown_of self) result }
    {
        match self {
            Printed::Whole(text) => put_whole(out, &text),
            Printed::Run(pipe) => put_run(out, pipe),
            Printed::Rings(pipe) => put_rings(out, pipe),
            Printed::Watched(pipe) => put_watched(alloc, out, pipe, watchers),
        }
    }
}

// Writes a text that was made whole.
fn put_whole<O: Sink>(out: &mut O, text: &WholeText) -> Result<(), Unput>
    requires { O.takes out.old (length (whole_text text.now)) }
    ensures prints { Prints O.tells O.written O.faults O.takes out.old out.new (whole_text text.now) result }
    ensures no_stream { IfErr result (λ unput. unput ≡ Unput.Failed) }
{
    text.put(out)?;
    Ok(())
}
