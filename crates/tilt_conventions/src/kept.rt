// What a converter keeps, as plain data.
ghost use Rattle.std.specs.Prelude.{◌≡◌};
ghost use Rattle.tilt_conventions.specs.Resumable.{fits};

use crate::fault_of::is_reading_time;
use crate::turn::Reading;
use std::marker::Model;
use tilt_feed::Edge;

/// What is kept of an input. It is enough to go on from: a clause sees it as what the definition of a step keeps.
#[derive(Debug, Drop)]
pub struct KeptConverter {
    /// Where what it has handed on ends.
    pub edge: Edge,
    /// Where the turn that was taken last starts.
    pub mark: i64,
    /// The reading that counts in the latest tick that has one.
    pub latest: Option<Reading>,
    /// How many readings were skipped, up to `u64::MAX`.
    pub skipped: u64,
}

impl Model for KeptConverter {
    ghost use Rattle.tilt_conventions.specs.Steps.{Kept};

    ghost Value = { Kept };

    ghost view = { λ k. record { edge = k.edge; mark = k.mark; latest = k.latest; skipped = k.skipped } };
}

/// Whether a converter can go on from this: the tick of the latest reading, if there is one, is from `1 - T` to `T`.
pub fn fits(kept: &KeptConverter) -> bool
    ensures { result ≡ fits kept.now }
{
    match kept.latest {
        Some(reading) => is_reading_time(reading.tick),
        None => true,
    }
}
