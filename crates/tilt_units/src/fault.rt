ghost use Rattle.std.specs.Prelude.{◌≡◌};
ghost use Rattle.tilt_units.specs.declared.fault.ScaleFault.TheVariants.{OutOfMemory};

use crate::place::Place;
use std::alloc::AllocError;
use thiserror::Error;

/// Why a query has no translation. A place is where the expression with the fault is.
#[derive(Debug, Drop, PartialEq, Eq, Error)]
pub enum ScaleFault {
    /// The expression reads a source that doesn't come before it.
    #[error("an expression reads a source that isn't known")]
    UnknownSource(Place),
    /// An operator or a reducer has truth values in place of numbers, or numbers in place of truth values.
    #[error("an operator has numbers and truth values the wrong way round")]
    TypeMismatch(Place),
    /// Two operands need one scale, and neither of their scales is a multiple of the other. Multiply one of them first.
    #[error("two operands have scales of which neither is a multiple of the other")]
    ScalesDiffer(Place),
    /// A literal isn't whole at the scale of what it is added to or compared with. Give that a larger scale, or round the literal.
    #[error("a literal isn't whole at the scale of the other operand")]
    LiteralNotWhole(Place),
    /// A literal leaves 64 bits at the scale of what it is added to or compared with.
    #[error("a literal is too large at the scale of the other operand")]
    LiteralTooLarge(Place),
    /// The scale of a product leaves 64 bits. Divide one of the factors first.
    #[error("a product has too large a scale")]
    ScaleTooLarge(Place),
    /// A definition's expression has more than 256 nodes.
    #[error("an expression has more than 256 nodes")]
    BodyTooLarge(Place),
    /// There are more than 256 inputs and definitions together.
    #[error("a query has more than 256 sources")]
    TooManySources,
    /// There was no memory for the translation.
    #[error("out of memory")]
    OutOfMemory,
}

impl From<AllocError> for ScaleFault {
    ghost from_gives = { λ _ fault. fault ≡ OutOfMemory };

    fn from(_: AllocError) -> Self {
        ScaleFault::OutOfMemory
    }
}
