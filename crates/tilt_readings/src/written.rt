// Numbers as texts, in a room of fixed size. Nothing here takes memory.
ghost use Rattle.std.specs.Prelude.{◌≡◌, ◌+◌, ◌≤◌, ◌++◌, length, take};
ghost use Rattle.tilt_readings.specs.Written.{decimal_text, last_digits};

use tilt_text::{append, append_number};

/// The text of a number divided by a power of ten, with as many decimals as the power has zeros: -5 with 2 decimals is `-0.05`. It is
/// written to the start of the room; the result is its length.
pub fn write_decimal(value: i64, decimals: u8, room: &mut [u8; 64]) -> usize
    requires { decimals ≤ 19 }
    ensures length { result ≡ length (decimal_text decimals value) }
    ensures text { take result room.new ≡ decimal_text decimals value }
{
    if decimals == 0 {
        return append_number(room, 0, value);
    }
    let size = value.unsigned_abs();
    let signed = if value < 0 { append(room, 0, b"-") } else { 0 };
    let whole = append_number(room, signed, (size / 10u64.pow(u32::from(decimals))) as i64);
    let point = append(room, whole, b".");
    append_digits(room, point, size, decimals)
}

/// Writes this many digits of a number, the last ones, after the first `at` bytes; the result is where they end.
pub(crate) fn append_digits(room: &mut [u8; 64], at: usize, number: u64, count: u8) -> usize
    requires { at + count ≤ 64 }
    ensures end { result ≡ at + count }
    ensures text { take result room.new ≡ take at room.old ++ last_digits count number }
{
    if count == 0 {
        return at;
    }
    let end = append_digits(room, at, number / 10, count - 1);
    append(room, end, &[b'0' + (number % 10) as u8])
}
