// Queries, compared by their texts.
ghost use Rattle.std.specs.Prelude.{◌≡◌, ◌↔◌, IsTrue, IfOk};

use std::alloc::{AllocError as OutOfMemory, Global};
use tilt_syntax::{Query, print};

// Whether two queries are the same: they are printed the same.
pub(crate) fn is_same(alloc: Global, query: &Query, other: &Query) -> Result<bool, OutOfMemory>
    ensures { IfOk result (λ same. IsTrue same ↔ (query.now ≡ other.now)) }
{
    let text = print(alloc, query)?;
    let other_text = print(alloc, other)?;
    Ok(text.as_slice() == other_text.as_slice())
}
