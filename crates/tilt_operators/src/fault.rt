ghost use Rattle.std.specs.Prelude.{◌≡◌};
ghost use Rattle.tilt_operators.specs.declared.fault.FlowFault.TheVariants.{OutOfMemory};

use std::alloc::AllocError;
use thiserror::Error;
use tilt_lexer::LexFault;

/// Why a text is no pipeline. Places are counted in bytes from 0, and steps from 1.
#[derive(Debug, Drop, PartialEq, Eq, Error)]
pub enum FlowFault {
    /// The byte at this place is no blank, and no token begins there.
    #[error("no token begins at byte {at}")]
    BadByte { at: u64 },
    /// The digits that begin at this place spell a number above 9223372036854775807.
    #[error("the number at byte {at} is too big")]
    BigNumber { at: u64 },
    /// The step breaks a rule of pipelines. Without tokens it is step 1.
    #[error("step {step} can't stand there")]
    BadStep { step: u32 },
    /// The expression of the step hasn't the type that the step asks for.
    #[error("step {step} has an expression of another type")]
    StepType { step: u32 },
    /// There was no memory for the pipeline.
    #[error("out of memory")]
    OutOfMemory,
}

impl From<AllocError> for FlowFault {
    ghost from_gives = { λ _ fault. fault ≡ OutOfMemory };

    fn from(_: AllocError) -> Self {
        FlowFault::OutOfMemory
    }
}

impl From<LexFault> for FlowFault {
    ghost use Rattle.std.specs.Prelude.{◌≡◌};
    ghost use Rattle.tilt_operators.specs.Fault.{of_place};

    ghost from_gives = { λ place fault. fault ≡ of_place place };

    fn from(place: LexFault) -> Self {
        match place {
            LexFault::BadByte { at } => FlowFault::BadByte { at },
            LexFault::BigNumber { at } => FlowFault::BigNumber { at },
            LexFault::OutOfMemory => FlowFault::OutOfMemory,
        }
    }
}
