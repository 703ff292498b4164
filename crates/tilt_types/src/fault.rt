ghost use Rattle.std.specs.Prelude.{◌≡◌};
ghost use Rattle.tilt_types.specs.declared.fault.CheckFault.TheVariants.{OutOfMemory};

use std::alloc::AllocError;
use thiserror::Error;

/// Why a query isn't well formed. Statements are counted from 1.
#[derive(Debug, Drop, PartialEq, Eq, Error)]
pub enum CheckFault {
    /// The statement declares a name that was declared before.
    #[error("statement {statement} declares a name again")]
    NameTaken { statement: u32 },
    /// A name in the statement's expression isn't declared before it.
    #[error("statement {statement} has an unknown name")]
    UnknownName { statement: u32 },
    /// The statement's expression has no type, or is emitted and has the type of truth values.
    #[error("statement {statement} has an expression of no fitting type")]
    TypeMismatch { statement: u32 },
    /// A window in the statement's expression doesn't end after its start.
    #[error("statement {statement} has an empty window")]
    BadWindow { statement: u32 },
    /// The statement's span bounds no stretch within the range of times, a grid can't have its period, its offset isn't below
    /// its period, or a bound is no grid point.
    #[error("statement {statement} has a bad domain")]
    BadDomain { statement: u32 },
    /// There was no memory for the core.
    #[error("out of memory")]
    OutOfMemory,
}

impl From<AllocError> for CheckFault {
    ghost from_gives = { λ _ fault. fault ≡ OutOfMemory };

    fn from(_: AllocError) -> Self {
        CheckFault::OutOfMemory
    }
}
