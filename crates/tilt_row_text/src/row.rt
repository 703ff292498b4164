// The lines of snapshots.
ghost use Rattle.std.specs.Prelude.{◌≡◌, ◌≤◌, ◌+◌, ◌++◌, Some, take};
ghost use Rattle.tilt_row_text.specs.Lines.{begun_line, row_line, value_text};

use crate::piece::append_piece;
use crate::style::RowStyle;
use crate::time::append_time;
use tilt_base::Cell;
use tilt_readings::write_decimal;
use tilt_stream::Snap;

/// Writes the line `start,end,value` of a snapshot, with its LF, to the start of the room, and returns its length.
pub fn write_row(style: RowStyle, row: &Snap, room: &mut [u8; 256]) -> usize
    ensures end { result ≤ 256 }
    ensures text { take result room.new ≡ row_line style row.now }
{
    let start = append_time(style.times, row.start, room, 0);
    let first = append_piece(room, start, b",");
    let end = append_time(style.times, row.end, room, first);
    let second = append_piece(room, end, b",");
    let value = append_value(style.decimals, row.value, room, second);
    append_piece(room, value, b"\n")
}

/// Writes the line `start,,value` of what has begun, with its LF, to the start of the room, and returns its length.
pub fn write_begun(style: RowStyle, start: i64, value: i64, room: &mut [u8; 256]) -> usize
    ensures end { result ≤ 256 }
    ensures text { take result room.new ≡ begun_line style start value }
{
    let start = append_time(style.times, start, room, 0);
    let second = append_piece(room, start, b",,");
    let value = append_value(style.decimals, Some(value), room, second);
    append_piece(room, value, b"\n")
}

// Writes a value after the first `at` bytes, and returns where it ends.
fn append_value(decimals: u8, value: Cell, room: &mut [u8; 256], at: usize) -> usize
    requires { at + 64 ≤ 256 }
    ensures end { result ≤ at + 64 }
    ensures text { take result room.new ≡ take at room.old ++ value_text decimals value }
{
    let Some(value) = value else {
        return at;
    };
    let mut small = [0; 64];
    let length = write_decimal(value, decimals.min(19), &mut small);
    append_piece(room, at, &small[..length])
}
