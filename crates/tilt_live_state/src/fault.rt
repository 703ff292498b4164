ghost use Rattle.std.specs.Prelude.{◌≡◌};
ghost use Rattle.tilt_live_state.specs.Faults.{of_check, of_reach, of_text};
ghost use Rattle.tilt_live_state.specs.declared.fault.StateFault.TheVariants.{OutOfMemory};

use std::alloc::AllocError;
use thiserror::Error;
use tilt_bounds::ReachFault;
use tilt_syntax::TextFault;
use tilt_types::CheckFault;

/// Why bytes gave no state of a live run.
#[derive(Debug, Drop, PartialEq, Eq, Error)]
pub enum StateFault {
    /// The bytes spell no valid state.
    #[error("the bytes are no state of a live run")]
    NotAState,
    /// There was no memory for the state.
    #[error("out of memory")]
    OutOfMemory,
}

impl From<AllocError> for StateFault {
    ghost from_gives = { λ _ fault. fault ≡ OutOfMemory };

    fn from(_: AllocError) -> Self {
        StateFault::OutOfMemory
    }
}

impl From<TextFault> for StateFault {
    ghost from_gives = { λ was fault. fault ≡ of_text was };

    fn from(was: TextFault) -> Self {
        match was {
            TextFault::OutOfMemory => StateFault::OutOfMemory,
            TextFault::Lexical(_) | TextFault::Refused(_) => StateFault::NotAState,
        }
    }
}

impl From<CheckFault> for StateFault {
    ghost from_gives = { λ was fault. fault ≡ of_check was };

    fn from(was: CheckFault) -> Self {
        match was {
            CheckFault::OutOfMemory => StateFault::OutOfMemory,
            CheckFault::NameTaken { .. }
            | CheckFault::UnknownName { .. }
            | CheckFault::TypeMismatch { .. }
            | CheckFault::BadWindow { .. }
            | CheckFault::BadDomain { .. } => StateFault::NotAState,
        }
    }
}

impl From<ReachFault> for StateFault {
    ghost from_gives = { λ was fault. fault ≡ of_reach was };

    fn from(was: ReachFault) -> Self {
        match was {
            ReachFault::OutOfMemory => StateFault::OutOfMemory,
            ReachFault::TooFar { .. } => StateFault::NotAState,
        }
    }
}
