ghost use Rattle.std.specs.Prelude.{◌≡◌};
ghost use Rattle.tilt_code.specs.declared.fault.CodeFault.TheVariants.{OutOfMemory};

use std::alloc::AllocError;
use thiserror::Error;

/// Why bytes aren't the listing of a code. Lines and loops are counted from 1.
#[derive(Debug, Drop, PartialEq, Eq, Error)]
pub enum CodeFault {
    /// The bytes aren't a listing by its grammar, and this line is the first that can't be where it is. It is the line
    /// after the last whole line if the bytes end too early, or without LF.
    #[error("line {line} of the code can't stand there")]
    BadCode { line: u64 },
    /// The bytes are a listing by its grammar, and this line is the first that names a buffer, a register or a map that
    /// isn't defined before it.
    #[error("line {line} of the code, in loop {in_loop}, names what isn't defined before it")]
    BadReference { in_loop: u64, line: u64 },
    /// There was no memory for the code.
    #[error("out of memory")]
    OutOfMemory,
}

impl From<AllocError> for CodeFault {
    ghost from_gives = { λ _ fault. fault ≡ OutOfMemory };

    fn from(_: AllocError) -> Self {
        CodeFault::OutOfMemory
    }
}
