ghost use Rattle.std.specs.Prelude.{◌≡◌};

use std::alloc::AllocError;
use thiserror::Error;

/// Why a line says nothing. A reader returns the first cause in the order of this list: the shape of the line comes before what its fields
/// say, and these come from left to right.
#[derive(Clone, Copy, Debug, PartialEq, Eq, Error)]
pub enum LineFault {
    /// The line isn't exactly one CSV record.
    #[error("the line isn't one CSV record")]
    NotOneRecord,
    /// The line doesn't have exactly this number of fields: 4 in a feed without keys, 5 in a feed with keys.
    #[error("the line doesn't have {expected} fields")]
    FieldCount { expected: u8 },
    /// Exactly these fields are empty in no form of a line, as in `name,,,` or `,start,end,value`.
    #[error("no form of a line leaves exactly these fields empty")]
    NoForm,
    /// No input of the query has the name. Names are compared byte by byte.
    #[error("no input has this name")]
    UnknownInput,
    /// The start isn't a number of 64 bits.
    #[error("the start isn't a number")]
    BadStart,
    /// The end, which is the watermark in a line without a start, isn't a number of 64 bits.
    #[error("the end isn't a number")]
    BadEnd,
    /// The value isn't a number of 64 bits.
    #[error("the value isn't a number")]
    BadValue,
}

/// Why no line was read.
#[derive(Clone, Copy, Debug, PartialEq, Eq, Error)]
pub enum ReadLineFault {
    /// The line says nothing.
    #[error("{0}")]
    BadLine(LineFault),
    /// There was no memory for the fields of the line.
    #[error("out of memory")]
    OutOfMemory,
}

impl From<LineFault> for ReadLineFault {
    ghost use Rattle.tilt_feed_line.specs.declared.fault.ReadLineFault.TheVariants.{BadLine};

    ghost from_gives = { λ cause fault. fault ≡ BadLine cause };

    fn from(cause: LineFault) -> Self {
        ReadLineFault::BadLine(cause)
    }
}

impl From<AllocError> for ReadLineFault {
    ghost use Rattle.tilt_feed_line.specs.declared.fault.ReadLineFault.TheVariants.{OutOfMemory};

    ghost from_gives = { λ _ fault. fault ≡ OutOfMemory };

    fn from(_: AllocError) -> Self {
        ReadLineFault::OutOfMemory
    }
}
