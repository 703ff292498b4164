// The text of snapshots, put line by line.
ghost use Rattle.std.specs.Prelude.{◌≡◌, ◌≤◌, [], ◌∷◌, length, take, codes};
ghost use Rattle.tilt_stream.specs.Text.{row_text, lines_of};
ghost use Rattle.tilt_outside.specs.Written.{Puts};

use crate::line::{ROOM, line_before};
use tilt_outside::{Failed, Sink};
use tilt_stream::{Row, Snap, SnapList};
use tilt_text::append;

/// Writes the header line.
pub fn put_header<O: Sink>(sink: &mut O) -> Result<(), Failed>
    requires { O.takes sink.old (length (codes "start,end,value\n")) }
    ensures { Puts O.tells O.written O.faults O.takes sink.old sink.new (codes "start,end,value\n") result }
{
    sink.put(b"start,end,value\n")
}

/// Writes the line of each snapshot that isn't null, in order.
pub fn put_rows<O: Sink>(sink: &mut O, list: &SnapList) -> Result<(), Failed>
    requires { O.takes sink.old (length (lines_of list.now)) }
    ensures { Puts O.tells O.written O.faults O.takes sink.old sink.new (lines_of list.now) result }
{
    for snap in list.as_slice() {
        put_snap(sink, snap)?;
    }
    Ok(())
}

/// Writes the line of a snapshot, and nothing for a null one.
#[inline]
pub fn put_snap<O: Sink>(sink: &mut O, snap: &Snap) -> Result<(), Failed>
    requires { O.takes sink.old (length (lines_of (snap.now ∷ []))) }
    ensures { Puts O.tells O.written O.faults O.takes sink.old sink.new (lines_of (snap.now ∷ [])) result }
{
    if snap.value.is_some() {
        put_row(sink, snap)
    } else {
        Ok(())
    }
}

// Writes the line of a row.
#[inline]
fn put_row<O: Sink>(sink: &mut O, row: &Row) -> Result<(), Failed>
    requires { O.takes sink.old (length (row_text row.now)) }
    ensures { Puts O.tells O.written O.faults O.takes sink.old sink.new (row_text row.now) result }
{
    let mut room = [0; ROOM];
    let start = line_before(row, &mut room);
    sink.put(&room[start..])
}

/// Writes `s,e,v` and LF into the beginning of the room, with nothing for a null value, and returns how long that is. Takes no memory.
pub fn row_text(row: &Row, room: &mut [u8; 64]) -> usize
    ensures text { take result room.new ≡ row_text row.now }
    ensures len { result ≡ length (row_text row.now) }
    ensures short { result ≤ 63 }
{
    let mut line = [0; ROOM];
    let start = line_before(row, &mut line);
    append(room, 0, &line[start..])
}
