ghost use Rattle.std.specs.Prelude.{◌≡◌};

use std::alloc::AllocError;
use thiserror::Error;
use tilt_stream::Row;

/// Why a text has no edits.
#[derive(Debug, Drop, PartialEq, Eq, Error)]
pub enum EditFault {
    /// The line, counted from 1, is no edit, or it isn't ended.
    #[error("no edit in line {line}")]
    BadEdit { line: u64 },
    /// There was no memory for the edits.
    #[error("out of memory")]
    OutOfMemory,
}

impl From<AllocError> for EditFault {
    ghost use Rattle.tilt_edits.specs.declared.fault.EditFault.TheVariants.{OutOfMemory};

    ghost from_gives = { λ _ fault. fault ≡ OutOfMemory };

    fn from(_: AllocError) -> Self {
        EditFault::OutOfMemory
    }
}

/// Why an edit isn't applied.
#[derive(Debug, Drop, PartialEq, Eq, Error)]
pub enum FixFault {
    /// No row has exactly these times.
    #[error("no such row")]
    NoSuchRow,
    /// This row has a tick in common with the one that was to be added. It is the first that has.
    #[error("a row has a tick in common with another")]
    Overlaps { row: Row },
    /// There was no memory for the edit.
    #[error("out of memory")]
    OutOfMemory,
}

impl From<AllocError> for FixFault {
    ghost use Rattle.tilt_edits.specs.declared.fault.FixFault.TheVariants.{OutOfMemory};

    ghost from_gives = { λ _ fault. fault ≡ OutOfMemory };

    fn from(_: AllocError) -> Self {
        FixFault::OutOfMemory
    }
}
