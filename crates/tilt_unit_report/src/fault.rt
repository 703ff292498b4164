ghost use Rattle.std.specs.Prelude.{◌≡◌};
ghost use Rattle.tilt_unit_report.specs.declared.fault.BoundFault.TheVariants.{OutOfMemory};

use std::alloc::AllocError;
use thiserror::Error;

/// Why there is no report.
#[derive(Debug, Drop, PartialEq, Eq, Error)]
pub enum BoundFault {
    /// The query has no input with the name of this bound, counted from 0.
    #[error("bound {bound} is of no input")]
    UnknownInput { bound: usize },
    /// There was no memory for the report.
    #[error("out of memory")]
    OutOfMemory,
}

impl From<AllocError> for BoundFault {
    ghost from_gives = { λ _ fault. fault ≡ OutOfMemory };

    fn from(_: AllocError) -> Self {
        BoundFault::OutOfMemory
    }
}
