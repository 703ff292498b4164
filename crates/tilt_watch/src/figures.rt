// The text of figures, written line by line.
ghost use Rattle.std.specs.Prelude.{◌≡◌, ◌≤◌, length, take};
ghost use Rattle.tilt_outside.specs.Written.{Puts};
ghost use Rattle.tilt_watch.specs.Places.{figures_of};
ghost use Rattle.tilt_watch.specs.Watch.{figures_line, figures_text};

use crate::panel::Panel;
use tilt_outside::{Failed, Sink};
use tilt_text::{append, append_number};

/// Writes the line `figures A B` of each watcher that the list had at first, in order. Takes no memory.
pub fn put_figures<O: Sink>(out: &mut O, panel: &Panel) -> Result<(), Failed>
    requires { O.takes out.old (length (figures_text (figures_of panel.now))) }
    ensures { Puts O.tells O.written O.faults O.takes out.old out.new (figures_text (figures_of panel.now)) result }
{
    for place in panel.places() {
        put_pair(out, place.figures())?;
    }
    Ok(())
}

// Writes the line of a pair.
fn put_pair<O: Sink>(out: &mut O, pair: (i64, i64)) -> Result<(), Failed>
    requires { O.takes out.old (length (figures_line pair)) }
    ensures { Puts O.tells O.written O.faults O.takes out.old out.new (figures_line pair) result }
{
    let mut room = [0; 64];
    let length = figures_text(pair, &mut room);
    out.put(&room[..length])
}

// Writes `figures A B` and LF into the start of the room, and returns how long that is.
fn figures_text(pair: (i64, i64), room: &mut [u8; 64]) -> usize
    ensures text { take result room.new ≡ figures_line pair }
    ensures len { result ≡ length (figures_line pair) }
    ensures short { result ≤ 64 }
{
    let (first, second) = pair;
    let at = append(room, 0, b"figures ");
    let at = append_number(room, at, first);
    let at = append(room, at, b" ");
    let at = append_number(room, at, second);
    append(room, at, b"\n")
}
