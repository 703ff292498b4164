ghost use Rattle.std.specs.Prelude.{◌≡◌};

use std::alloc::AllocError;
use thiserror::Error;
use tilt_outside::Failed;
use tilt_serving::Halt;

/// Why a run stops.
#[derive(Clone, Copy, Debug, PartialEq, Eq, Error)]
pub enum Stop {
    /// A line is bad, and stops the run. It was reported.
    #[error("a line is bad")]
    BadLine,
    /// A write failed.
    #[error("the output could not be written")]
    WriteFault,
    /// There was no memory.
    #[error("out of memory")]
    OutOfMemory,
}

impl From<AllocError> for Stop {
    ghost use Rattle.tilt_live_run.specs.declared.stop.Stop.TheVariants.{OutOfMemory};

    ghost from_gives = { λ _ stop. stop ≡ OutOfMemory };

    fn from(_: AllocError) -> Self {
        Stop::OutOfMemory
    }
}

impl From<Failed> for Stop {
    ghost use Rattle.tilt_live_run.specs.declared.stop.Stop.TheVariants.{WriteFault};

    ghost from_gives = { λ _ stop. stop ≡ WriteFault };

    fn from(_: Failed) -> Self {
        Stop::WriteFault
    }
}

impl From<Stop> for Halt {
    ghost use Rattle.tilt_live_run.specs.Feeds.{feed_stop};
    ghost use Rattle.tilt_serving.specs.Stops.{halt_of};

    ghost from_gives = { λ stop halt. halt ≡ halt_of (feed_stop stop) };

    fn from(stop: Stop) -> Self {
        match stop {
            Stop::BadLine => Halt::BadLine,
            Stop::WriteFault => Halt::WriteFault,
            Stop::OutOfMemory => Halt::OutOfMemory,
        }
    }
}
