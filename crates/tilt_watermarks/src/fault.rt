use thiserror::Error;
use tilt_feed::EventFault;

/// Why a line isn't taken.
#[derive(Clone, Copy, Debug, PartialEq, Eq, Error)]
pub enum TakeFault {
    /// What it says isn't allowed: the first rule that it breaks.
    #[error("{0}")]
    NotAllowed(EventFault),
    /// It overlaps a row or a value of its input that is held.
    #[error("it overlaps one that is held")]
    Overlap,
    /// It starts too far above the largest end.
    #[error("it is too far ahead")]
    Ahead,
}

/// Why a line wasn't taken.
#[derive(Clone, Copy, Debug, PartialEq, Eq, Error)]
pub enum TakeError {
    /// The line isn't taken.
    #[error("{0}")]
    Fault(TakeFault),
    /// Memory ran out.
    #[error("out of memory")]
    OutOfMemory,
}
