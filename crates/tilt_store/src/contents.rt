// What is in a folder in memory.
ghost use Rattle.std.specs.Prelude.{◌≡◌, IfOk};
ghost use Rattle.tilt_store.specs.MemFolder.{kept_of};

use std::alloc::{AllocError as OutOfMemory, Global};

/// The bytes of an output file and a state file.
#[derive(Drop)]
pub(crate) struct Contents {
    pub output: Vec<u8>,
    pub state: Vec<u8>,
}

/// A copy.
pub(crate) fn copy(alloc: Global, contents: &Contents) -> Result<Contents, OutOfMemory>
    ensures { IfOk result (λ copy. kept_of copy ≡ kept_of contents.now) }
{
    Ok(Contents {
        output: contents.output.to_vec(alloc)?,
        state: contents.state.to_vec(alloc)?,
    })
}
