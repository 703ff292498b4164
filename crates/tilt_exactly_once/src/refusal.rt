// Why a folder isn't served into.
use thiserror::Error;
use tilt_store::{FolderError, OpenError};

/// Why a machine doesn't go on from a text.
#[derive(Clone, Copy, Debug, PartialEq, Eq, Error)]
pub enum Refusal {
    /// The text is no valid state.
    #[error("the text is no state")]
    NotAState,
    /// It is the state of another query.
    #[error("it is the state of another query")]
    OtherQuery,
    /// It is the state of a run with other options.
    #[error("it is the state of a run with other options")]
    OtherOptions,
    /// There was no memory.
    #[error("out of memory")]
    OutOfMemory,
}

/// Why a folder isn't served into.
#[derive(Clone, Copy, Debug, PartialEq, Eq, Error)]
pub enum StartError {
    /// The folder couldn't be opened.
    #[error("{0}")]
    Unopened(OpenError),
    /// The first output couldn't be written.
    #[error("{0}")]
    Unwritten(FolderError),
    /// There was no memory.
    #[error("out of memory")]
    OutOfMemory,
    /// The state in the folder was rejected.
    #[error("{0}")]
    Rejected(Refusal),
    /// Output is committed, but no state with it.
    #[error("output is committed without a state")]
    Stateless,
}
