use std::alloc::AllocError;
use thiserror::Error;

/// Why no state was read of a text.
#[derive(Clone, Copy, Debug, PartialEq, Eq, Error)]
pub enum KeyedStateFault {
    /// The text doesn't begin with the first line of a state of a run with keys, of the version that is read here.
    #[error("not a state of a run with keys")]
    OtherFormat,
    /// It begins so, and is the spelling of no state.
    #[error("damaged state of a run with keys")]
    Damaged,
    /// There was no memory.
    #[error("out of memory")]
    OutOfMemory,
}

impl From<AllocError> for KeyedStateFault {
    ghost use Rattle.std.specs.Prelude.{◌≡◌};
    ghost use Rattle.tilt_keyed_state.specs.declared.fault.KeyedStateFault.TheVariants.{OutOfMemory};

    ghost from_gives = { λ _ fault. fault ≡ OutOfMemory };

    fn from(_: AllocError) -> Self {
        KeyedStateFault::OutOfMemory
    }
}
