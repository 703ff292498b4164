ghost use Rattle.std.specs.Prelude.{◌≡◌};
ghost use Rattle.tilt_checkpoint.specs.Faults.{of_check, of_reach, of_text};
ghost use Rattle.tilt_checkpoint.specs.declared.fault.CheckpointFault.TheVariants.{OutOfMemory};

use std::alloc::AllocError;
use thiserror::Error;
use tilt_bounds::ReachFault;
use tilt_syntax::TextFault;
use tilt_types::CheckFault;

/// Why bytes gave no checkpoint.
#[derive(Debug, Drop, PartialEq, Eq, Error)]
pub enum CheckpointFault {
    /// The bytes spell no valid checkpoint.
    #[error("the bytes are no checkpoint")]
    BadCheckpoint,
    /// There was no memory for the checkpoint.
    #[error("out of memory")]
    OutOfMemory,
}

impl From<AllocError> for CheckpointFault {
    ghost from_gives = { λ _ fault. fault ≡ OutOfMemory };

    fn from(_: AllocError) -> Self {
        CheckpointFault::OutOfMemory
    }
}

impl From<TextFault> for CheckpointFault {
    ghost from_gives = { λ was fault. fault ≡ of_text was };

    fn from(was: TextFault) -> Self {
        match was {
            TextFault::OutOfMemory => CheckpointFault::OutOfMemory,
            TextFault::Lexical(_) | TextFault::Refused(_) => CheckpointFault::BadCheckpoint,
        }
    }
}

impl From<CheckFault> for CheckpointFault {
    ghost from_gives = { λ was fault. fault ≡ of_check was };

    fn from(was: CheckFault) -> Self {
        match was {
            CheckFault::OutOfMemory => CheckpointFault::OutOfMemory,
            CheckFault::NameTaken { .. }
            | CheckFault::UnknownName { .. }
            | CheckFault::TypeMismatch { .. }
            | CheckFault::BadWindow { .. }
            | CheckFault::BadDomain { .. } => CheckpointFault::BadCheckpoint,
        }
    }
}

impl From<ReachFault> for CheckpointFault {
    ghost from_gives = { λ was fault. fault ≡ of_reach was };

    fn from(was: ReachFault) -> Self {
        match was {
            ReachFault::OutOfMemory => CheckpointFault::OutOfMemory,
            ReachFault::TooFar { .. } => CheckpointFault::BadCheckpoint,
        }
    }
}
