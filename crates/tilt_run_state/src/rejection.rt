// Why a run can't go on from a text.
ghost use Rattle.std.specs.Prelude.{◌≡◌};
ghost use Rattle.tilt_run_state.specs.Faults.{of_state};
ghost use Rattle.tilt_run_state.specs.declared.rejection.StateRejection.TheVariants.{OutOfMemory};

use std::alloc::AllocError;
use thiserror::Error;
use tilt_live_state::StateFault;

/// Why a run of a query over a feed can't go on from a text.
#[derive(Debug, Drop, PartialEq, Eq, Error)]
pub enum StateRejection {
    /// The text spells no valid state.
    #[error("the text is no state of a live run")]
    NotAState,
    /// It is the state of a run of another query.
    #[error("the text is the state of another query")]
    OtherQuery,
    /// It is the state of a run over a feed with other options.
    #[error("the text is the state of a run with other options")]
    OtherOptions,
    /// There was no memory for the state.
    #[error("out of memory")]
    OutOfMemory,
}

impl From<AllocError> for StateRejection {
    ghost from_gives = { λ _ why. why ≡ OutOfMemory };

    fn from(_: AllocError) -> Self {
        StateRejection::OutOfMemory
    }
}

impl From<StateFault> for StateRejection {
    ghost from_gives = { λ was why. why ≡ of_state was };

    fn from(was: StateFault) -> Self {
        match was {
            StateFault::NotAState => StateRejection::NotAState,
            StateFault::OutOfMemory => StateRejection::OutOfMemory,
        }
    }
}
