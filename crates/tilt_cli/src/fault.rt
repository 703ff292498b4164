ghost use Rattle.std.specs.Prelude.{◌≡◌};
ghost use Rattle.tilt_cli.specs.declared.fault.WordsFault.TheVariants.{OutOfMemory};

use std::alloc::{AllocError, AllocFailed};
use thiserror::Error;

/// Why arguments give no command.
#[derive(Debug, Drop, PartialEq, Eq, Error)]
pub enum WordsFault {
    /// The arguments are no command.
    #[error("the words are no command")]
    Usage,
    /// There was no memory for the command.
    #[error("out of memory")]
    OutOfMemory,
}

impl From<AllocError> for WordsFault {
    ghost from_gives = { λ _ fault. fault ≡ OutOfMemory };

    fn from(_: AllocError) -> Self {
        WordsFault::OutOfMemory
    }
}

impl<T: Drop> From<AllocFailed<T>> for WordsFault {
    ghost from_gives = { λ _ fault. fault ≡ OutOfMemory };

    fn from(_: AllocFailed<T>) -> Self {
        WordsFault::OutOfMemory
    }
}
