ghost use Rattle.std.specs.Prelude.{◌≡◌};
ghost use Rattle.tilt_magnitudes.specs.declared.fault.MagnitudeFault.TheVariants.{OutOfMemory, CanOverflow};

use crate::overflow::Overflow;
use std::alloc::AllocError;
use thiserror::Error;

/// Why a query has no bounds.
#[derive(Debug, Drop, PartialEq, Eq, Error)]
pub enum MagnitudeFault {
    /// An expression can leave 64 bits.
    #[error("an expression can leave 64 bits")]
    CanOverflow(Overflow),
    /// There was no memory for the bounds.
    #[error("out of memory")]
    OutOfMemory,
}

impl From<AllocError> for MagnitudeFault {
    ghost from_gives = { λ _ fault. fault ≡ OutOfMemory };

    fn from(_: AllocError) -> Self {
        MagnitudeFault::OutOfMemory
    }
}

impl From<Overflow> for MagnitudeFault {
    ghost from_gives = { λ overflow fault. fault ≡ CanOverflow overflow };

    fn from(overflow: Overflow) -> Self {
        MagnitudeFault::CanOverflow(overflow)
    }
}
