// Why a feed isn't served to its end.
ghost use Rattle.std.specs.Prelude.{◌≡◌};

use crate::stop::Stop;
use std::alloc::AllocError;
use thiserror::Error;

/// Why a feed isn't served to its end.
#[derive(Clone, Copy, Debug, PartialEq, Eq, Error)]
pub enum Halt {
    /// A line is bad, and stops the run. It was reported.
    #[error("a line is bad")]
    BadLine,
    /// A line has a new key, and there are as many keys as there may be. It wasn't reported.
    #[error("too many keys")]
    TooManyKeys,
    /// A read of the feed failed.
    #[error("the feed could not be read")]
    ReadFault,
    /// A write or the flush of the output failed.
    #[error("the output could not be written")]
    WriteFault,
    /// There was no memory.
    #[error("out of memory")]
    OutOfMemory,
}

impl From<Stop> for Halt {
    ghost use Rattle.tilt_serving.specs.Stops.{halt_of};

    ghost from_gives = { λ stop halt. halt ≡ halt_of stop };

    fn from(stop: Stop) -> Self {
        match stop {
            Stop::BadLine => Halt::BadLine,
            Stop::TooManyKeys => Halt::TooManyKeys,
            Stop::WriteFault => Halt::WriteFault,
            Stop::OutOfMemory => Halt::OutOfMemory,
        }
    }
}

impl From<AllocError> for Halt {
    ghost use Rattle.tilt_serving.specs.declared.halt.Halt.TheVariants.{OutOfMemory};

    ghost from_gives = { λ _ halt. halt ≡ OutOfMemory };

    fn from(_: AllocError) -> Self {
        Halt::OutOfMemory
    }
}
