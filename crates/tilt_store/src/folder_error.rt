// Why a call of a folder failed.
ghost use Rattle.std.specs.Prelude.{◌≡◌};
ghost use Rattle.tilt_store.specs.declared.folder_error.FolderError.TheVariants.{OutOfMemory};

use std::alloc::{AllocError, AllocFailed};
use thiserror::Error;

/// Why a call of a folder failed.
#[derive(Clone, Copy, Debug, PartialEq, Eq, Error)]
pub enum FolderError {
    /// There was no memory for the call.
    #[error("out of memory")]
    OutOfMemory,
    /// A file couldn't be read or written. The folder's count of faults rose.
    #[error("a file couldn't be read or written")]
    Failed,
}

impl From<AllocError> for FolderError {
    ghost from_gives = { λ _ error. error ≡ OutOfMemory };

    fn from(_: AllocError) -> Self {
        FolderError::OutOfMemory
    }
}

impl<T: Drop> From<AllocFailed<T>> for FolderError {
    ghost from_gives = { λ _ error. error ≡ OutOfMemory };

    fn from(_: AllocFailed<T>) -> Self {
        FolderError::OutOfMemory
    }
}
