// Why a run stops.
ghost use Rattle.std.specs.Prelude.{◌≡◌};

use std::alloc::AllocError;
use thiserror::Error;
use tilt_outside::Failed;

/// Why the run of a feed stops.
#[derive(Clone, Copy, Debug, PartialEq, Eq, Error)]
pub enum Stop {
    /// A line is bad, and stops the run. It was reported.
    #[error("a line is bad")]
    BadLine,
    /// A line has a new key, and there are as many keys as there may be. It wasn't reported.
    #[error("too many keys")]
    TooManyKeys,
    /// A write failed.
    #[error("the output could not be written")]
    WriteFault,
    /// There was no memory.
    #[error("out of memory")]
    OutOfMemory,
}

impl From<AllocError> for Stop {
    ghost use Rattle.tilt_serving.specs.declared.stop.Stop.TheVariants.{OutOfMemory};

    ghost from_gives = { λ _ stop. stop ≡ OutOfMemory };

    fn from(_: AllocError) -> Self {
        Stop::OutOfMemory
    }
}

impl From<Failed> for Stop {
    ghost use Rattle.tilt_serving.specs.declared.stop.Stop.TheVariants.{WriteFault};

    ghost from_gives = { λ _ stop. stop ≡ WriteFault };

    fn from(_: Failed) -> Self {
        Stop::WriteFault
    }
}
