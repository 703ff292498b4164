// Why a folder couldn't be opened.
ghost use Rattle.std.specs.Prelude.{◌≡◌};
ghost use Rattle.tilt_store.specs.Errors.{of_folder};
ghost use Rattle.tilt_store.specs.declared.open_error.OpenError.TheVariants.{OutOfMemory};

use crate::folder_error::FolderError;
use std::alloc::AllocError;
use thiserror::Error;

/// Why a folder couldn't be opened.
#[derive(Clone, Copy, Debug, PartialEq, Eq, Error)]
pub enum OpenError {
    /// There was no memory for the call.
    #[error("out of memory")]
    OutOfMemory,
    /// A file couldn't be read or written. The folder's count of faults rose.
    #[error("a file couldn't be read or written")]
    Failed,
    /// There is an output but no state, so nobody knows how much of the output counts.
    #[error("there is an output but no state")]
    OutputWithoutState,
    /// The state doesn't start with its seal, or no length in shortest decimal and LF comes behind that: it is none of ours, or some of its
    /// bytes were spoiled.
    #[error("the state is none, or was spoiled")]
    BrokenState,
    /// The output is shorter than the length in the state.
    #[error("the output is shorter than the state says")]
    OutputTooShort,
}

impl From<AllocError> for OpenError {
    ghost from_gives = { λ _ error. error ≡ OutOfMemory };

    fn from(_: AllocError) -> Self {
        OpenError::OutOfMemory
    }
}

impl From<FolderError> for OpenError {
    ghost from_gives = { λ was error. error ≡ of_folder was };

    fn from(was: FolderError) -> Self {
        match was {
            FolderError::OutOfMemory => OpenError::OutOfMemory,
            FolderError::Failed => OpenError::Failed,
        }
    }
}
