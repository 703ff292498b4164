ghost use Rattle.std.specs.Prelude.{◌≡◌};

use std::alloc::AllocError;
use thiserror::Error;
use tilt_readings::{DateFault, DecimalFault};
use tilt_zones::LocalFault;

/// What a column is for.
#[derive(Clone, Copy, Debug, PartialEq, Eq)]
pub enum Column {
    /// The times.
    Time,
    /// The names of the inputs.
    Name,
    /// The values.
    Value,
    /// The values of the input with this number, counted from 0.
    OfInput { input: u32 },
}

/// Why a header is bad. Columns are looked for in the order of `Column`, and columns of inputs in the order of the inputs.
#[derive(Clone, Copy, Debug, PartialEq, Eq, Error)]
pub enum HeaderFault {
    /// The line isn't exactly one record.
    #[error("the header isn't one CSV record")]
    NotOneRecord,
    /// No column has the title.
    #[error("a column is missing")]
    Missing { column: Column },
    /// More than one column has the title.
    #[error("more than one column has the title")]
    Doubled { column: Column },
}

/// Why no header was read.
#[derive(Clone, Copy, Debug, PartialEq, Eq, Error)]
pub enum ReadHeaderFault {
    /// The header is bad.
    #[error("{0}")]
    BadHeader(HeaderFault),
    /// Memory ran out.
    #[error("out of memory")]
    OutOfMemory,
}

impl From<HeaderFault> for ReadHeaderFault {
    ghost use Rattle.tilt_reading_lines.specs.declared.fault.ReadHeaderFault.TheVariants.{BadHeader};

    ghost from_gives = { λ cause fault. fault ≡ BadHeader cause };

    fn from(cause: HeaderFault) -> Self {
        ReadHeaderFault::BadHeader(cause)
    }
}

impl From<AllocError> for ReadHeaderFault {
    ghost use Rattle.tilt_reading_lines.specs.declared.fault.ReadHeaderFault.TheVariants.{OutOfMemory};

    ghost from_gives = { λ _ fault. fault ≡ OutOfMemory };

    fn from(_: AllocError) -> Self {
        ReadHeaderFault::OutOfMemory
    }
}

/// Why a line says nothing. A reader returns the first cause in the order of this list; of several bad values, the first input's.
#[derive(Clone, Copy, Debug, PartialEq, Eq, Error)]
pub enum LineFault {
    /// The line isn't exactly one record.
    #[error("the line isn't one CSV record")]
    NotOneRecord,
    /// The record doesn't have as many fields as the header.
    #[error("the line doesn't have {expected} fields")]
    FieldCount { expected: usize },
    /// The time isn't a date.
    #[error("bad time: {0}")]
    BadDate(DateFault),
    /// The time is a local time that has no moment in the zone.
    #[error("bad time: {0}")]
    BadLocal(LocalFault),
    /// The time isn't a number.
    #[error("bad time: {0}")]
    BadNumber(DecimalFault),
    /// The moment lies in none of the ticks from `1 - T` to `T`.
    #[error("the time is out of range")]
    TimeOutOfRange,
    /// There is a value, and no name.
    #[error("a name was expected")]
    NoName,
    /// The value of the input isn't a number at its scale.
    #[error("bad value: {fault}")]
    BadValue { input: u32, fault: DecimalFault },
}

/// Why no line was read.
#[derive(Clone, Copy, Debug, PartialEq, Eq, Error)]
pub enum ReadLineFault {
    /// The line says nothing.
    #[error("{0}")]
    BadLine(LineFault),
    /// Memory ran out.
    #[error("out of memory")]
    OutOfMemory,
}

impl From<LineFault> for ReadLineFault {
    ghost use Rattle.tilt_reading_lines.specs.declared.fault.ReadLineFault.TheVariants.{BadLine};

    ghost from_gives = { λ cause fault. fault ≡ BadLine cause };

    fn from(cause: LineFault) -> Self {
        ReadLineFault::BadLine(cause)
    }
}

impl From<AllocError> for ReadLineFault {
    ghost use Rattle.tilt_reading_lines.specs.declared.fault.ReadLineFault.TheVariants.{OutOfMemory};

    ghost from_gives = { λ _ fault. fault ≡ OutOfMemory };

    fn from(_: AllocError) -> Self {
        ReadLineFault::OutOfMemory
    }
}
