// Pieces and numbers, written into a room of fixed size. Nothing here takes memory.
ghost use Rattle.std.specs.Prelude.{◌≡◌, ◌≤◌, ◌+◌, ◌++◌, length, take};
ghost use Rattle.std.specs.Fmt.{signed_decimal};

use itoa::Buffer;

/// Writes a piece after the first `at` bytes, and returns where it ends.
#[inline]
pub fn append(room: &mut [u8; 64], at: usize, piece: &[u8]) -> usize
    requires { at + length piece.now ≤ 64 }
    ensures end { result ≡ at + length piece.now }
    ensures text { take result room.new ≡ take at room.old ++ piece.now }
{
    let end = at + piece.len();
    room[at..end].copy_from_slice(piece);
    end
}

/// Writes a number in shortest decimal after the first `at` bytes, and returns where it ends.
#[inline]
pub fn append_number(room: &mut [u8; 64], at: usize, number: i64) -> usize
    requires { at + 20 ≤ 64 }
    ensures end { result ≡ at + length (signed_decimal number) }
    ensures text { take result room.new ≡ take at room.old ++ signed_decimal number }
    ensures short { result ≤ at + 20 }
{
    let mut buffer = Buffer::new();
    append(room, at, buffer.format(number).as_bytes())
}
