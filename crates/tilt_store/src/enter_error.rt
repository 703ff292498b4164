// Why a folder isn't given.
ghost use Rattle.std.specs.Prelude.{◌≡◌};

use std::alloc::{AllocError, AllocFailed};
use thiserror::Error;

/// Why a program doesn't get a folder.
#[derive(Clone, Copy, Debug, PartialEq, Eq, Error)]
pub enum EnterError {
    /// Another program has it.
    #[error("another program has the folder")]
    InUse,
    /// It couldn't be made, or its lock couldn't be taken. The count of faults rose.
    #[error("the folder couldn't be made or locked")]
    Failed,
    /// There was no memory for the call.
    #[error("out of memory")]
    OutOfMemory,
}

impl From<AllocError> for EnterError {
    ghost use Rattle.tilt_store.specs.declared.enter_error.EnterError.TheVariants.{OutOfMemory};

    ghost from_gives = { λ _ error. error ≡ OutOfMemory };

    fn from(_: AllocError) -> Self {
        EnterError::OutOfMemory
    }
}

impl<T: Drop> From<AllocFailed<T>> for EnterError {
    ghost use Rattle.tilt_store.specs.declared.enter_error.EnterError.TheVariants.{OutOfMemory};

    ghost from_gives = { λ _ error. error ≡ OutOfMemory };

    fn from(_: AllocFailed<T>) -> Self {
        EnterError::OutOfMemory
    }
}
