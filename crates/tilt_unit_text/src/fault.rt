ghost use Rattle.std.specs.Prelude.{◌≡◌};
ghost use Rattle.tilt_unit_text.specs.declared.fault.UnitFault.TheVariants.{OutOfMemory};

use std::alloc::AllocError;
use thiserror::Error;
use tilt_syntax::SyntaxFault;
use tilt_types::CheckFault;
use tilt_units::ScaleFault;

/// Why a text in units isn't a query over whole numbers. Each place `at` is counted in bytes of the text from 0.
#[derive(Debug, Drop, PartialEq, Eq, Error)]
pub enum UnitFault {
    /// The byte at this place is no blank, and no token begins there.
    #[error("no token begins at byte {at}")]
    BadByte { at: u64 },
    /// The digits of the number at this place, without its point, spell a number above 9223372036854775807.
    #[error("the number at byte {at} has too many digits: round it")]
    BigNumber { at: u64 },
    /// The point at this place isn't between two digits of a number, or it is the second one in a number.
    #[error("the point at byte {at} isn't between two digits of a number: write 0.5 or 5.0")]
    BadPoint { at: u64 },
    /// The number at this place has more than 18 digits after its point.
    #[error("the number at byte {at} has more than 18 decimals: round it")]
    ManyDecimals { at: u64 },
    /// The text without its points has tokens, but they aren't a query. It is never an out-of-memory fault.
    #[error("{0}")]
    Syntax(SyntaxFault),
    /// The number at this place is a number of ticks, and has a point. Shifts, windows, spans and grids are in whole ticks.
    #[error("the number of ticks at byte {at} has a point: write a whole number, or use shorter ticks")]
    TicksWithPoint { at: u64 },
    /// The query isn't well formed. It is never an out-of-memory fault.
    #[error("{0}")]
    IllFormed(CheckFault),
    /// The query has no translation to whole numbers, since the statement with this number, counted from 1, has this fault. It is never
    /// an out-of-memory fault.
    #[error("statement {statement}: {fault}")]
    Scale { statement: u32, fault: ScaleFault },
    /// Over whole numbers, the expression of the statement with this number, counted from 1, has more than 256 nodes. Split it.
    #[error("statement {statement} has more than 256 nodes over whole numbers: split it")]
    WholeTooLarge { statement: u32 },
    /// Over whole numbers, no text of the statement with this number, counted from 1, has at most 256 tokens. Split it.
    #[error("statement {statement} takes more than 256 tokens over whole numbers: split it")]
    WholeTooLong { statement: u32 },
    /// There was no memory for the query.
    #[error("out of memory")]
    OutOfMemory,
}

impl From<AllocError> for UnitFault {
    ghost from_gives = { λ _ fault. fault ≡ OutOfMemory };

    fn from(_: AllocError) -> Self {
        UnitFault::OutOfMemory
    }
}

impl From<SyntaxFault> for UnitFault {
    ghost use Rattle.std.specs.Prelude.{◌≡◌};
    ghost use Rattle.tilt_unit_text.specs.Units.{of_syntax};

    ghost from_gives = { λ syntax fault. fault ≡ of_syntax syntax };

    fn from(syntax: SyntaxFault) -> Self {
        match syntax {
            SyntaxFault::OutOfMemory => UnitFault::OutOfMemory,
            other => UnitFault::Syntax(other),
        }
    }
}

impl From<CheckFault> for UnitFault {
    ghost use Rattle.std.specs.Prelude.{◌≡◌};
    ghost use Rattle.tilt_unit_text.specs.Units.{of_check};

    ghost from_gives = { λ check fault. fault ≡ of_check check };

    fn from(check: CheckFault) -> Self {
        match check {
            CheckFault::OutOfMemory => UnitFault::OutOfMemory,
            other => UnitFault::IllFormed(other),
        }
    }
}
