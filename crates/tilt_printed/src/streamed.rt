// Texts of which each line is written before the next snapshot is made.
ghost use Rattle.std.specs.Prelude.{◌≡◌, false, length, max, IfOk};
ghost use Rattle.tilt_code.specs.Run.{run_of};
ghost use Rattle.tilt_outside.specs.Written.{Puts};
ghost use Rattle.tilt_pipe.specs.Rings.{held, most_ever};
ghost use Rattle.tilt_pipe.specs.Value.{pipe_after};
ghost use Rattle.tilt_printed.specs.Prints.{Prints};
ghost use Rattle.tilt_printed.specs.Rings.{rings_line, rings_text};
ghost use Rattle.tilt_stream.specs.Text.{lines_of, text_of};

use crate::unput::Unput;
use itoa::Buffer;
use tilt_outside::{Failed, Sink};
use tilt_pipe::Pipe;
use tilt_series::{put_header, put_snap};

// Writes the text of the snapshots that the pipe gives out.
pub(crate) fn put_run<O: Sink>(out: &mut O, pipe: Pipe) -> Result<(), Unput>
    requires fresh { pipe ≡ pipe_after pipe.code pipe.inputs 0 }
    requires room { O.takes out.old (length (text_of (run_of pipe.code pipe.inputs))) }
    ensures { Prints O.tells O.written O.faults O.takes out.old out.new (text_of (run_of pipe.code pipe.inputs)) result }
{
    put_header(out)?;
    put_lines(out, pipe)
}

// Writes the lines of the snapshots that the pipe gives out.
fn put_lines<O: Sink>(out: &mut O, pipe: Pipe) -> Result<(), Unput>
    requires fresh { pipe ≡ pipe_after pipe.code pipe.inputs 0 }
    requires room { O.takes out.old (length (lines_of (run_of pipe.code pipe.inputs))) }
    ensures { Prints O.tells O.written O.faults O.takes out.old out.new (lines_of (run_of pipe.code pipe.inputs)) result }
{
    let mut pipe = pipe;
    while let Some(snap) = pipe.next()? {
        put_snap(out, &snap)?;
    }
    Ok(())
}

// Writes the text of the snapshots that the pipe gives out, and then the line of the most that its rings held.
pub(crate) fn put_rings<O: Sink>(out: &mut O, pipe: Pipe) -> Result<(), Unput>
    requires fresh { pipe ≡ pipe_after pipe.code pipe.inputs 0 }
    requires room { O.takes out.old (length (rings_text pipe.code pipe.inputs)) }
    ensures { Prints O.tells O.written O.faults O.takes out.old out.new (rings_text pipe.code pipe.inputs) result }
{
    let most = put_counted_text(out, pipe)?;
    put_most(out, most)?;
    Ok(())
}

// Writes the text of the snapshots that the pipe gives out, and returns the most that its rings held.
fn put_counted_text<O: Sink>(out: &mut O, pipe: Pipe) -> Result<u128, Unput>
    requires fresh { pipe ≡ pipe_after pipe.code pipe.inputs 0 }
    requires room { O.takes out.old (length (text_of (run_of pipe.code pipe.inputs))) }
    ensures prints { Prints O.tells O.written O.faults O.takes out.old out.new (text_of (run_of pipe.code pipe.inputs)) result }
    ensures most { IfOk result (λ most. most ≡ most_ever pipe.code pipe.inputs) }
{
    put_header(out)?;
    put_counted_lines(out, pipe)
}

// Writes the lines of the snapshots that the pipe gives out, and returns the most that its rings held.
fn put_counted_lines<O: Sink>(out: &mut O, pipe: Pipe) -> Result<u128, Unput>
    requires fresh { pipe ≡ pipe_after pipe.code pipe.inputs 0 }
    requires room { O.takes out.old (length (lines_of (run_of pipe.code pipe.inputs))) }
    ensures prints { Prints O.tells O.written O.faults O.takes out.old out.new (lines_of (run_of pipe.code pipe.inputs)) result }
    ensures most { IfOk result (λ most. most ≡ most_ever pipe.code pipe.inputs) }
{
    let mut pipe = pipe;
    let mut most = pipe.held();
    while let Some(snapshot) = pipe.next()? {
        put_snap(out, &snapshot)?;
        note_held(&mut most, &pipe);
    }
    Ok(most)
}

// Notes how many snapshots the rings of a pipe hold, if they are more than the most so far. It isn't inlined, so that a turn doesn't keep
// that number in registers.
#[inline(never)]
fn note_held(most: &mut u128, pipe: &Pipe)
    requires { pipe.now.refused ≡ false }
    ensures { most.new ≡ max most.old (held pipe.now.rings) }
{
    *most = (*most).max(pipe.held());
}

// Writes the line `rings G`.
fn put_most<O: Sink>(out: &mut O, most: u128) -> Result<(), Failed>
    requires { O.takes out.old (length (rings_line most)) }
    ensures { Puts O.tells O.written O.faults O.takes out.old out.new (rings_line most) result }
{
    let mut buffer = Buffer::new();
    out.put(b"rings ")?;
    out.put(buffer.format(most).as_bytes())?;
    out.put(b"\n")
}
