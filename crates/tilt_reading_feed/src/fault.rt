use thiserror::Error;
use tilt_conventions::TurnFault;

/// Why what a line says isn't taken. If the feed is finished, that is the cause. Else it is that of the first reading which isn't taken,
/// and then that of the tick up to which all inputs are known. Inputs are counted from 0.
#[derive(Clone, Copy, Debug, PartialEq, Eq, Error)]
pub enum FeedFault {
    /// The feed is finished.
    #[error("the feed is finished")]
    Finished,
    /// A reading is of an input that the feed doesn't have.
    #[error("there is no input {input}")]
    NoInput { input: u32 },
    /// A reading isn't of a later input than the reading before it. A line has one reading of an input at most, in the order of the inputs.
    #[error("a second reading of input {input}, or one that isn't in the order of the inputs")]
    Repeated { input: u32 },
    /// The input doesn't take the reading.
    #[error("the reading of input {input}: {fault}")]
    NotTaken { input: u32, fault: TurnFault },
    /// The tick up to which all inputs are known isn't in `-T..=T`.
    #[error("a time is out of range")]
    OutOfRange,
}

/// Why a line wasn't taken, or why the feed wasn't finished.
#[derive(Clone, Copy, Debug, PartialEq, Eq, Error)]
pub enum TakeError {
    /// The line isn't taken.
    #[error("{0}")]
    Fault(FeedFault),
    /// Memory ran out.
    #[error("out of memory")]
    OutOfMemory,
}
