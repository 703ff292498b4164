// The bytes of a line whose LF hasn't come yet.
ghost use Rattle.std.specs.Prelude.{◌≡◌, ◌≤◌, ◌+◌, ◌++◌, length, take, OnOk, OnErr};
ghost use Rattle.tilt_feed_text.specs.declared.pending.TheConstants.{LINE};

use std::alloc::AllocError as OutOfMemory;

/// How many bytes a line may have, without its LF.
pub const LINE: usize = 65536;

/// Appends a piece to the bytes of a line, as far as the line doesn't get longer than `LINE + 1` bytes. So it can be seen later that it
/// is too long. If memory runs out, nothing changes.
pub fn append_cut(line: &mut Vec<u8>, piece: &[u8]) -> Result<(), OutOfMemory>
    requires { length line.old.items ≤ LINE + 1 }
    ensures ok { OnOk result (line.new.items ≡ take (LINE + 1) (line.old.items ++ piece.now)) }
    ensures err { OnErr result (line.new.items ≡ line.old.items) }
{
    let room = LINE + 1 - line.len();
    let count = room.min(piece.len());
    line.extend_from_slice(&piece[..count])?;
    Ok(())
}
