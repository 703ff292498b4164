ghost use Rattle.std.specs.Prelude.{◌≡◌};

use std::alloc::AllocError;
use thiserror::Error;
use tilt_feed_line::LineFault;
use tilt_watermarks::TakeFault;

/// Why a line of a feed is bad. A bad line changes nothing.
#[derive(Clone, Copy, Debug, PartialEq, Eq, Error)]
pub enum BadLine {
    /// It has more than `LINE` bytes without its LF.
    #[error("the line is too long")]
    TooLong,
    /// It says nothing.
    #[error("{0}")]
    Unreadable(LineFault),
    /// The watermarks don't take what it says after the lines before it.
    #[error("{0}")]
    NotTaken(TakeFault),
    /// The feed ended before its LF.
    #[error("the line has no end")]
    NoEnd,
}

/// Why the content of a line wasn't read.
#[derive(Clone, Copy, Debug, PartialEq, Eq, Error)]
pub enum ReadContentFault {
    /// The line is bad.
    #[error("{0}")]
    Bad(BadLine),
    /// There was no memory for the fields of the line.
    #[error("out of memory")]
    OutOfMemory,
}

impl From<AllocError> for ReadContentFault {
    ghost use Rattle.tilt_feed_text.specs.declared.bad_line.ReadContentFault.TheVariants.{OutOfMemory};

    ghost from_gives = { λ _ fault. fault ≡ OutOfMemory };

    fn from(_: AllocError) -> Self {
        ReadContentFault::OutOfMemory
    }
}
