ghost use Rattle.std.specs.Prelude.{◌≡◌};
ghost use Rattle.tilt_reading_state.specs.declared.fault.KeptFault.TheVariants.{OutOfMemory};

use std::alloc::AllocError;
use thiserror::Error;

/// Why a text gave nothing that is kept of a text of readings.
#[derive(Debug, Drop, PartialEq, Eq, Error)]
pub enum KeptFault {
    /// The text begins with the spelling of nothing valid.
    #[error("the text doesn't begin with what is kept of a text of readings")]
    NotKept,
    /// There was no memory for what is kept.
    #[error("out of memory")]
    OutOfMemory,
}

impl From<AllocError> for KeptFault {
    ghost from_gives = { λ _ fault. fault ≡ OutOfMemory };

    fn from(_: AllocError) -> Self {
        KeptFault::OutOfMemory
    }
}
