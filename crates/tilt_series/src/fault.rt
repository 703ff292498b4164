// Why a series is rejected.
ghost use Rattle.std.specs.Prelude.{◌≡◌};
ghost use Rattle.tilt_series.specs.declared.fault.ReadRowsFault.TheVariants.{Refused, OutOfMemory};

use std::alloc::AllocError;
use thiserror::Error;

/// Why a series file is rejected. Rows are the records after the header, counted from 1, and fields are counted from
/// 1. The first row with a fault is reported, and of that row the first fault in the order of this list.
#[derive(Clone, Copy, Debug, PartialEq, Eq, Error)]
pub enum SeriesFault {
    /// The first record isn't `start`, `end` and `value`, there is no record, or there are two byte order marks at the beginning.
    #[error("the header isn't start,end,value")]
    BadHeader,
    /// The record hasn't three fields.
    #[error("row {row} hasn't three fields")]
    BadFields {
        /// The row.
        row: u64,
    },
    /// The field isn't a number within 64 bits, nor an empty value.
    #[error("field {field} of row {row} isn't a number")]
    BadField {
        /// The row.
        row: u64,
        /// The first such field: 1 is the start, 2 the end, and 3 the value.
        field: u8,
    },
    /// The start or the end lies outside `-T..=T`.
    #[error("a time of row {row} is out of range")]
    TimeRange {
        /// The row.
        row: u64,
    },
    /// The start isn't below the end.
    #[error("row {row} is empty")]
    EmptyInterval {
        /// The row.
        row: u64,
    },
    /// The start is below the end of the row before, or of what was before the first row.
    #[error("row {row} starts before the end of the one before it")]
    OutOfOrder {
        /// The row.
        row: u64,
    },
    /// The start is below the tick that rows are read from.
    #[error("row {row} starts before the cut")]
    RowBeforeCut {
        /// The row.
        row: u64,
    },
    /// The start is at or above the tick that rows are read up to.
    #[error("row {row} starts past the cut")]
    RowPastCut {
        /// The row.
        row: u64,
    },
}

/// Why a series file gives no rows.
#[derive(Clone, Copy, Debug, PartialEq, Eq, Error)]
pub enum ReadRowsFault {
    /// The file is rejected.
    #[error("{0}")]
    Refused(SeriesFault),
    /// There was no memory for the rows.
    #[error("out of memory")]
    OutOfMemory,
}

impl From<SeriesFault> for ReadRowsFault {
    ghost from_gives = { λ fault told. told ≡ Refused fault };

    fn from(fault: SeriesFault) -> Self {
        ReadRowsFault::Refused(fault)
    }
}

impl From<AllocError> for ReadRowsFault {
    ghost from_gives = { λ _ fault. fault ≡ OutOfMemory };

    fn from(_: AllocError) -> Self {
        ReadRowsFault::OutOfMemory
    }
}
