// Why a feed isn't served to its end.
ghost use Rattle.std.specs.Prelude.{◌≡◌};

use std::alloc::AllocError;
use thiserror::Error;
use tilt_store::FolderError;

/// Why a machine stops.
#[derive(Clone, Copy, Debug, PartialEq, Eq, Error)]
pub enum Stop {
    /// A line is bad, and bad lines stop the machine. It was reported.
    #[error("a line is bad")]
    BadLine,
    /// A state can't count so long a feed or output.
    #[error("the feed or its output is too long")]
    TooLong,
    /// There was no memory.
    #[error("out of memory")]
    OutOfMemory,
}

/// Why a feed isn't served to its end.
#[derive(Clone, Copy, Debug, PartialEq, Eq, Error)]
pub enum Halt {
    /// A line is bad, and bad lines stop the machine. It was reported.
    #[error("a line is bad")]
    BadLine,
    /// A state can't count so long a feed or output.
    #[error("the feed or its output is too long")]
    TooLong,
    /// There was no memory.
    #[error("out of memory")]
    OutOfMemory,
    /// The feed couldn't be read.
    #[error("the feed could not be read")]
    ReadFault,
    /// A file of the folder couldn't be read or written. The folder's count of faults rose.
    #[error("a file could not be read or written")]
    Failed,
    /// The feed is read from a byte after those that are committed, so bytes between are missing.
    #[error("the feed starts after what is committed")]
    Gap,
    /// The feed ended before those that are committed, so it isn't the same feed.
    #[error("the feed ends before what is committed")]
    Short,
    /// The last bytes that are committed aren't those of the feed, so it isn't the same feed, or it has changed.
    #[error("the feed has changed before what is committed")]
    Changed,
}

impl From<AllocError> for Halt {
    ghost use Rattle.tilt_exactly_once.specs.declared.halt.Halt.TheVariants.{OutOfMemory};

    ghost from_gives = { λ _ halt. halt ≡ OutOfMemory };

    fn from(_: AllocError) -> Self {
        Halt::OutOfMemory
    }
}

impl From<Stop> for Halt {
    ghost use Rattle.tilt_exactly_once.specs.Halts.{of_stop};

    ghost from_gives = { λ stop halt. halt ≡ of_stop stop };

    fn from(stop: Stop) -> Self {
        match stop {
            Stop::BadLine => Halt::BadLine,
            Stop::TooLong => Halt::TooLong,
            Stop::OutOfMemory => Halt::OutOfMemory,
        }
    }
}

impl From<FolderError> for Halt {
    ghost use Rattle.tilt_exactly_once.specs.Halts.{of_folder};

    ghost from_gives = { λ was halt. halt ≡ of_folder was };

    fn from(was: FolderError) -> Self {
        match was {
            FolderError::OutOfMemory => Halt::OutOfMemory,
            FolderError::Failed => Halt::Failed,
        }
    }
}
