// The last bytes of a feed that were taken.
ghost use Rattle.std.specs.Prelude.{◌≡◌, ◌≤◌, ◌-◌, ◌++◌, drop, length, IfOk};
ghost use Rattle.tilt_exactly_once.specs.Last.{last_of};

use std::alloc::{AllocError as OutOfMemory, Global};
use tilt_text::put;

// How many of the last bytes are kept at most.
const LAST: usize = 4096;

// The last bytes of some, if a piece comes after them.
pub(crate) fn last_of(alloc: Global, last: &[u8], piece: &[u8]) -> Result<Vec<u8>, OutOfMemory>
    ensures { IfOk result (λ bytes. bytes.items ≡ last_of (last.now ++ piece.now)) }
{
    let new = piece.len().min(LAST);
    let old = last.len().min(LAST - new);
    let mut bytes = Vec::with_capacity(alloc, old + new)?;
    put(&mut bytes, ending(last, old))?;
    put(&mut bytes, ending(piece, new))?;
    Ok(bytes)
}

// So many bytes at the end of some.
fn ending(bytes: &[u8], count: usize) -> &[u8]
    requires { count ≤ length bytes.now }
    ensures { result.now ≡ drop (length bytes.now - count) bytes.now }
{
    &bytes[bytes.len() - count..]
}
