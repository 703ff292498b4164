ghost use Rattle.std.specs.Prelude.{◌≡◌};
ghost use Rattle.tilt_overflows.specs.declared.fault.WatchError.TheVariants.{OutOfMemory};

use std::alloc::AllocError;
use thiserror::Error;

/// Why a query has no watching query.
#[derive(Debug, Drop, PartialEq, Eq, Error)]
pub enum WatchError {
    /// The watching query would have more than 256 inputs and definitions, or an expression of more than 256 nodes.
    #[error("the query is too large to be watched")]
    TooLarge,
    /// There was no memory for the watching query.
    #[error("out of memory")]
    OutOfMemory,
}

impl From<AllocError> for WatchError {
    ghost from_gives = { λ _ fault. fault ≡ OutOfMemory };

    fn from(_: AllocError) -> Self {
        WatchError::OutOfMemory
    }
}
