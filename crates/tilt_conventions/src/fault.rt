use thiserror::Error;

/// Why a turn isn't taken: the first cause in the order of this list.
#[derive(Clone, Copy, Debug, PartialEq, Eq, Error)]
pub enum TurnFault {
    /// The tick of a reading, or the one that it moves to, isn't in `1 - T..=T`; or a watermark isn't in `-T..=T`.
    #[error("a time is out of range")]
    OutOfRange,
    /// It starts before the turn that was taken last. A reading starts at the tick before its own, and a watermark at itself.
    #[error("it is before what is known")]
    Late,
    /// It is a second reading in one tick, and such readings are rejected.
    #[error("it is a second reading in one tick")]
    Tie,
}

/// Why a turn wasn't taken.
#[derive(Clone, Copy, Debug, PartialEq, Eq, Error)]
pub enum TakeError {
    /// The turn isn't taken.
    #[error("{0}")]
    Fault(TurnFault),
    /// Memory ran out.
    #[error("out of memory")]
    OutOfMemory,
}
