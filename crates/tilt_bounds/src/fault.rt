ghost use Rattle.std.specs.Prelude.{◌≡◌};
ghost use Rattle.tilt_bounds.specs.declared.fault.ReachFault.TheVariants.{OutOfMemory};

use std::alloc::AllocError;
use thiserror::Error;

/// Why a core has no margins.
#[derive(Debug, Drop, PartialEq, Eq, Error)]
pub enum ReachFault {
    /// The look-back or the look-ahead of the query is above `REACH`. The fault has both, in ticks.
    #[error("the query looks {back} ticks back and {ahead} ahead")]
    TooFar { back: i128, ahead: i128 },
    /// There was no memory for the margins.
    #[error("out of memory")]
    OutOfMemory,
}

impl From<AllocError> for ReachFault {
    ghost from_gives = { λ _ fault. fault ≡ OutOfMemory };

    fn from(_: AllocError) -> Self {
        ReachFault::OutOfMemory
    }
}
