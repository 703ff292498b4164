// A query, copied by its text.
ghost use Rattle.std.specs.Prelude.{◌≡◌, IfOk};

use std::alloc::{AllocError as OutOfMemory, Global};
use tilt_syntax::{Query, print, read_text};

// The same query: the one that its text reads as.
pub(crate) fn copy(alloc: Global, query: &Query) -> Result<Query, OutOfMemory>
    ensures { IfOk result (λ copy. copy ≡ query.now) }
{
    let text = print(alloc, query)?;
    match read_text(alloc, &text) {
        Ok(copy) => Ok(copy),
        Err(_) => Err(OutOfMemory),
    }
}
