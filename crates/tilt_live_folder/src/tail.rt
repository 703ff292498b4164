// The bytes of a text after its last LF.
ghost use Rattle.std.specs.Prelude.{◌≡◌, ◌++◌, OnOk};
ghost use Rattle.tilt_feed_text.specs.Split.{ended, unfinished, unfinished_after};

use std::alloc::AllocError as OutOfMemory;
use tilt_text::until;

// The bytes up to the last LF, with it, and those after it.
pub(crate) fn split_lines(bytes: &[u8]) -> (&[u8], &[u8])
    ensures lines { result.0.now ≡ ended bytes.now }
    ensures tail { result.1.now ≡ unfinished bytes.now }
{
    let tail = after_lines(bytes);
    (&bytes[..bytes.len() - tail.len()], tail)
}

// The bytes after the last LF.
fn after_lines(bytes: &[u8]) -> &[u8]
    ensures { result.now ≡ unfinished bytes.now }
{
    let mut rest = bytes;
    while let Some((_, after)) = until(rest, b'\n') {
        rest = after;
    }
    rest
}

// Makes bytes without an LF those after the last LF, if this piece comes after them.
pub(crate) fn grow(tail: &mut Vec<u8>, piece: &[u8]) -> Result<(), OutOfMemory>
    ensures { OnOk result (tail.new.items ≡ unfinished_after tail.old.items piece.now) }
{
    match until(piece, b'\n') {
        None => append(tail, piece),
        Some((_, rest)) => {
            tail.clear();
            append(tail, after_lines(rest))
        }
    }
}

// Appends bytes.
fn append(tail: &mut Vec<u8>, bytes: &[u8]) -> Result<(), OutOfMemory>
    ensures { OnOk result (tail.new.items ≡ tail.old.items ++ bytes.now) }
{
    tail.extend_from_slice(bytes)
}
