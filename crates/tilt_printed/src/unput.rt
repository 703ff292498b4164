// Why a text isn't written whole.
ghost use Rattle.std.specs.Prelude.{◌≡◌};
ghost use Rattle.tilt_printed.specs.Unput.{report_of_unput};
ghost use Rattle.tilt_printed.specs.declared.unput.Unput.TheVariants as variant;
ghost use Rattle.tilt_report.specs.Report.{report_of};

use std::alloc::AllocError;
use thiserror::Error;
use tilt_report::Fault;

/// Why a text isn't written whole.
#[derive(Clone, Copy, Debug, Drop, PartialEq, Eq, Error)]
pub enum Unput {
    /// A write or the flush failed.
    #[error("the output can't be written")]
    Failed,
    /// There was no memory for the next snapshot, or for the places of the watchers.
    #[error("out of memory")]
    OutOfMemory,
}

impl From<tilt_outside::Failed> for Unput {
    ghost from_gives = { λ _ unput. unput ≡ variant.Failed };

    fn from(_: tilt_outside::Failed) -> Self {
        Unput::Failed
    }
}

impl From<AllocError> for Unput {
    ghost from_gives = { λ _ unput. unput ≡ variant.OutOfMemory };

    fn from(_: AllocError) -> Self {
        Unput::OutOfMemory
    }
}

impl Unput {
    /// Why the command isn't done.
    pub fn fault<'a>(self) -> Fault<'a>
        ensures { report_of result ≡ report_of_unput self }
    {
        match self {
            Unput::Failed => Fault::WriteFault,
            Unput::OutOfMemory => Fault::OutOfMemory,
        }
    }
}
