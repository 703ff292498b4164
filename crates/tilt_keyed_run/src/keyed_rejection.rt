use std::alloc::AllocError;

/// Why no runs can go on from a text.
#[derive(Clone, Copy, Debug, PartialEq, Eq)]
pub enum KeyedRejection<W> {
    /// The text doesn't begin with the first line of a state of a run with keys.
    OtherFormat,
    /// It begins so, and is the spelling of no state.
    Damaged,
    /// It has a key twice.
    RepeatedKey,
    /// The run of a key can't go on from its state.
    OfKey { why: W },
    /// There was no memory.
    OutOfMemory,
}

impl<W> From<AllocError> for KeyedRejection<W> {
    ghost use Rattle.std.specs.Prelude.{◌≡◌};
    ghost use Rattle.tilt_keyed_run.specs.declared.keyed_rejection.KeyedRejection.TheVariants.{OutOfMemory};

    ghost from_gives = { λ _ why. why ≡ OutOfMemory };

    fn from(_: AllocError) -> Self {
        KeyedRejection::OutOfMemory
    }
}
