ghost use Rattle.std.specs.Prelude.{◌≡◌};
ghost use Rattle.tilt_lexer.specs.declared.fault.LexFault.TheVariants.{OutOfMemory};

use std::alloc::AllocError;
use thiserror::Error;

/// Why a text has no tokens. Each place is counted in bytes from 0.
#[derive(Debug, Drop, PartialEq, Eq, Error)]
pub enum LexFault {
    /// The byte at this place is no blank, and no token begins there.
    #[error("no token begins at byte {at}")]
    BadByte { at: u64 },
    /// The digits that begin at this place spell a number above 9223372036854775807.
    #[error("the number at byte {at} is too big")]
    BigNumber { at: u64 },
    /// There was no memory for the tokens.
    #[error("out of memory")]
    OutOfMemory,
}

impl From<AllocError> for LexFault {
    ghost from_gives = { λ _ fault. fault ≡ OutOfMemory };

    fn from(_: AllocError) -> Self {
        LexFault::OutOfMemory
    }
}
