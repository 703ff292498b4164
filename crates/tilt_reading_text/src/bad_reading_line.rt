ghost use Rattle.std.specs.Prelude.{◌≡◌};

use std::alloc::AllocError;
use thiserror::Error;
use tilt_reading_feed::FeedFault;
use tilt_reading_lines::{HeaderFault, LineFault};

/// Why a line of a feed of readings is bad. A bad line changes nothing.
#[derive(Clone, Copy, Debug, PartialEq, Eq, Error)]
pub enum BadReadingLine {
    /// It has more than `LINE` bytes without its LF.
    #[error("the line is too long")]
    TooLong,
    /// It is the header, and doesn't have the columns.
    #[error("bad header: {0}")]
    BadHeader(HeaderFault),
    /// It says nothing.
    #[error("{0}")]
    Unreadable(LineFault),
    /// The feed doesn't take what it says after the lines before it.
    #[error("{0}")]
    NotTaken(FeedFault),
    /// The feed ended before its LF.
    #[error("the line has no end")]
    NoEnd,
}

/// Why a line wasn't taken.
#[derive(Clone, Copy, Debug, PartialEq, Eq, Error)]
pub enum TakeLineError {
    /// The line is bad.
    #[error("{0}")]
    Bad(BadReadingLine),
    /// Memory ran out.
    #[error("out of memory")]
    OutOfMemory,
}
