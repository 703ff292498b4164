// Why a feed isn't served into a folder to its end.
use crate::halt::Halt;
use crate::refusal::StartError;
use thiserror::Error;

/// Why a feed isn't served into a folder to its end.
#[derive(Clone, Copy, Debug, PartialEq, Eq, Error)]
pub enum Failure {
    /// Nothing was read.
    #[error("{0}")]
    Unstarted(StartError),
    /// Something halted it.
    #[error("{0}")]
    Halted(Halt),
}
