// Pieces in a room that holds a row.
ghost use Rattle.std.specs.Prelude.{◌≡◌, ◌≤◌, ◌+◌, ◌++◌, length, take};

// Writes a piece after the first `at` bytes, and returns where it ends.
#[inline]
pub(crate) fn append_piece(room: &mut [u8; 256], at: usize, piece: &[u8]) -> usize
    requires { at + length piece.now ≤ 256 }
    ensures end { result ≡ at + length piece.now }
    ensures text { take result room.new ≡ take at room.old ++ piece.now }
{
    let end = at + piece.len();
    room[at..end].copy_from_slice(piece);
    end
}
