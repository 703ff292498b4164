// The line of a row, written into a room of fixed size from its last byte to its first.
ghost use Rattle.std.specs.Prelude.{◌≡◌, ◌<◌, ◌≤◌, ◌+◌, ◌∷◌, ◌++◌, length, drop};
ghost use Rattle.std.specs.Fmt.{signed_decimal};
ghost use Rattle.tilt_stream.specs.Text.{cell_text, row_text};

use itoa::write_digits;
use tilt_base::Cell;
use tilt_stream::Row;

/// No line is longer.
pub(crate) const ROOM: usize = 64;

/// Writes `s,e,v` and LF to the end of the room, with nothing for a null value, and returns where the line starts. Takes no memory.
#[inline]
pub(crate) fn line_before(row: &Row, room: &mut [u8; ROOM]) -> usize
    ensures low { 0 < result }
    ensures within { result ≤ 64 }
    ensures text { drop result room.new ≡ row_text row.now }
{
    let at = byte_before(room, ROOM, b'\n');
    let at = cell_before(room, at, row.value);
    let at = byte_before(room, at, b',');
    let at = number_before(room, at, row.end);
    let at = byte_before(room, at, b',');
    number_before(room, at, row.start)
}

// Writes a byte before a place, and returns where it is.
#[inline]
fn byte_before(room: &mut [u8; ROOM], end: usize, byte: u8) -> usize
    requires low { 0 < end }
    requires high { end ≤ 64 }
    ensures start { result + 1 ≡ end }
    ensures text { drop result room.new ≡ byte ∷ drop end room.old }
{
    room[end - 1] = byte;
    end - 1
}

// Writes a value in shortest decimal before a place, and nothing for null, and returns where it starts.
#[inline]
fn cell_before(room: &mut [u8; ROOM], end: usize, cell: Cell) -> usize
    requires low { 20 ≤ end }
    requires high { end ≤ 64 }
    ensures short { end ≤ result + 20 }
    ensures within { result ≤ end }
    ensures text { drop result room.new ≡ cell_text cell ++ drop end room.old }
{
    match cell {
        Some(value) => number_before(room, end, value),
        None => end,
    }
}

// Writes a number in shortest decimal before a place, and returns where it starts.
fn number_before(room: &mut [u8; ROOM], end: usize, number: i64) -> usize
    requires low { 20 ≤ end }
    requires high { end ≤ 64 }
    ensures short { end ≤ result + 20 }
    ensures within { result ≤ end }
    ensures text { drop result room.new ≡ signed_decimal number ++ drop end room.old }
{
    let start = write_digits(number.unsigned_abs(), room, end);
    if number >= 0 {
        return start;
    }
    byte_before(room, start, b'-')
}
