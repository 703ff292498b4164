ghost use Rattle.std.specs.Prelude.{◌≡◌};

use crate::reading_option::ReadingOption;
use std::alloc::{AllocError, AllocFailed};
use thiserror::Error;
use tilt_lexer::Name;

/// Why texts give no choice.
#[derive(Clone, Copy, Debug, PartialEq, Eq, Error)]
pub enum ChoiceFault {
    /// The first option that is bad, or that is missing.
    #[error("a bad option")]
    Bad { option: ReadingOption },
    /// Memory ran out.
    #[error("out of memory")]
    OutOfMemory,
}

impl From<ReadingOption> for ChoiceFault {
    ghost use Rattle.tilt_reading_options.specs.declared.fault.ChoiceFault.TheVariants.{Bad};

    ghost from_gives = { λ option fault. fault ≡ Bad option };

    fn from(option: ReadingOption) -> Self {
        ChoiceFault::Bad { option }
    }
}

impl From<AllocError> for ChoiceFault {
    ghost use Rattle.tilt_reading_options.specs.declared.fault.ChoiceFault.TheVariants.{OutOfMemory};

    ghost from_gives = { λ _ fault. fault ≡ OutOfMemory };

    fn from(_: AllocError) -> Self {
        ChoiceFault::OutOfMemory
    }
}

impl<T: Drop> From<AllocFailed<T>> for ChoiceFault {
    ghost use Rattle.tilt_reading_options.specs.declared.fault.ChoiceFault.TheVariants.{OutOfMemory};

    ghost from_gives = { λ _ fault. fault ≡ OutOfMemory };

    fn from(_: AllocFailed<T>) -> Self {
        ChoiceFault::OutOfMemory
    }
}

/// Why a choice gives no form.
#[derive(Debug, Drop, Error)]
pub enum FormFault {
    /// The first name in `--scale`, `--max-age` or `--events` that is no input.
    #[error("an option of what is no input")]
    NoInput { name: Name },
    /// Memory ran out.
    #[error("out of memory")]
    OutOfMemory,
}

impl From<AllocError> for FormFault {
    ghost use Rattle.tilt_reading_options.specs.declared.fault.FormFault.TheVariants.{OutOfMemory};

    ghost from_gives = { λ _ fault. fault ≡ OutOfMemory };

    fn from(_: AllocError) -> Self {
        FormFault::OutOfMemory
    }
}
