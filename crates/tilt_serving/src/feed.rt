// A feed, served from where its run is to its last byte.
ghost use Rattle.std.specs.Prelude.{◌≡◌, ◌<◌, ℕ, List, length, true, IfOk, OnOk};
ghost use Rattle.tilt_port.specs.Transcript.{Transcript};
ghost use Rattle.tilt_serving.specs.Meaning.{GoesByBytes};
ghost use Rattle.tilt_serving.specs.Served.{Start};
ghost use Rattle.tilt_serving.specs.Serving.{GoesOn, HasStepped, WasServed, end_with};
ghost use Rattle.tilt_serving.specs.Stops.{is_whole};

use crate::feed_run::FeedRun;
use crate::halt::Halt;
use std::alloc::{AllocError as OutOfMemory, Global};
use tilt_outside::{Failed, Sink};
use tilt_port::Port;

// How many bytes one read asks for at most.
const PIECE: usize = 65536;

// Whether there may be more of the feed.
#[derive(Clone, Copy, Debug, PartialEq, Eq)]
enum Progress {
    More,
    Ended,
}

/// Serves what is left of the feed of a run that goes by the bytes, and hands on all of the output. `BadLine` and `TooManyKeys` come if a
/// line stops the run, `ReadFault` and `WriteFault` only if that count of the port's faults rose, and `OutOfMemory` if memory runs out.
pub fn serve<R: FeedRun, P: Port, E: Sink>(
    alloc: Global,
    run: &mut R,
    port: &mut P,
    err: &mut E,
) -> Result<(), Halt>
    requires sound { R.sound run.old }
    requires lines { (n : ℕ) → E.takes err.old n }
    ensures served { (of : R.Of) (start : Start) (old : Transcript) (reports : E)
        → GoesByBytes (R.means of)
        → GoesOn (R.means of) (R.is run.old of) start P.tells old (P.transcript port.old) E.tells E.written E.faults reports err.old
        → WasServed (R.means of) (R.is run.new of) start P.tells old (P.transcript port.new) E.tells E.written E.faults reports err.new
        result }
    ensures sound { OnOk result (R.sound run.new) }
    ensures keeps { R.keeps run.old → R.keeps run.new }
    ensures handed_on { is_whole result ≡ true → (P.transcript port.new).held_back ≡ 0 }
    ensures takes { (n : ℕ) → E.takes err.new n }
{
    let mut room = make_room(alloc, PIECE)?;
    let end = serve_all(alloc, run, &mut room, port, err);
    let flushed = port.flush();
    end_with(end, flushed)
}

// How a feed ends, if the last flush ended so: a fault of it counts unless a fault or refused memory halted the feed.
fn end_with(end: Result<(), Halt>, flushed: Result<(), Failed>) -> Result<(), Halt>
    ensures { result ≡ end_with end flushed }
{
    match (end, flushed) {
        (Ok(()) | Err(Halt::BadLine | Halt::TooManyKeys), Err(_)) => Err(Halt::WriteFault),
        _ => end,
    }
}

// Memory that reads can fill.
fn make_room(alloc: Global, size: usize) -> Result<Vec<u8>, OutOfMemory>
    ensures { IfOk result (λ room. length room.items ≡ size) }
{
    vec![in alloc; 0u8; size]
}

// Serves what is left of a feed.
fn serve_all<R: FeedRun, P: Port, E: Sink>(
    alloc: Global,
    run: &mut R,
    room: &mut [u8],
    port: &mut P,
    err: &mut E,
) -> Result<(), Halt>
    requires space { 0 < length room.old }
    requires sound { R.sound run.old }
    requires lines { (n : ℕ) → E.takes err.old n }
    ensures served { (of : R.Of) (start : Start) (old : Transcript) (reports : E)
        → GoesByBytes (R.means of)
        → GoesOn (R.means of) (R.is run.old of) start P.tells old (P.transcript port.old) E.tells E.written E.faults reports err.old
        → WasServed (R.means of) (R.is run.new of) start P.tells old (P.transcript port.new) E.tells E.written E.faults reports err.new
        result }
    ensures sound { OnOk result (R.sound run.new) }
    ensures keeps { R.keeps run.old → R.keeps run.new }
    ensures takes { (n : ℕ) → E.takes err.new n }
{
    for _ in 0..u64::MAX {
        match serve_more(alloc, run, room, port, err)? {
            Progress::More => {}
            Progress::Ended => return Ok(()),
        }
    }
    // No feed has so many pieces. If one did, the program would stop here.
    Err(Halt::OutOfMemory)
}

// Hands on what was written, reads more, and takes it.
fn serve_more<R: FeedRun, P: Port, E: Sink>(
    alloc: Global,
    run: &mut R,
    room: &mut [u8],
    port: &mut P,
    err: &mut E,
) -> Result<Progress, Halt>
    requires space { 0 < length room.old }
    requires sound { R.sound run.old }
    requires lines { (n : ℕ) → E.takes err.old n }
    ensures stepped { (of : R.Of) (start : Start) (old : Transcript) (reports : E)
        → GoesByBytes (R.means of)
        → GoesOn (R.means of) (R.is run.old of) start P.tells old (P.transcript port.old) E.tells E.written E.faults reports err.old
        → HasStepped (R.means of) (R.is run.new of) start P.tells old (P.transcript port.new) E.tells E.written E.faults reports err.new
        result }
    ensures sound { OnOk result (R.sound run.new) }
    ensures keeps { R.keeps run.old → R.keeps run.new }
    ensures length { length room.new ≡ length room.old }
    ensures takes { (n : ℕ) → E.takes err.new n }
{
    if port.flush().is_err() {
        return Err(Halt::WriteFault);
    }
    let Ok(count) = port.read(room) else {
        return Err(Halt::ReadFault);
    };
    if count == 0 {
        run.end_feed(err)?;
        return Ok(Progress::Ended);
    }
    run.feed(alloc, &room[..count], port, err)?;
    Ok(Progress::More)
}
