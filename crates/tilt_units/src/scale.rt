// How many parts a unit is divided into.
ghost use Rattle.std.specs.Prelude.{◌≡◌, ◌^◌, ◌<◌, MatchOption};
ghost use Rattle.tilt_units.specs.Scale.{IsScale};

use std::marker::Model;

/// A number of equal parts of a unit, from 1 to 9223372036854775807. At the scale 10 the number 965 means 96.5.
#[derive(Clone, Copy, Debug, PartialEq, Eq)]
pub struct Scale {
    parts: u64,
}

impl Model for Scale {
    ghost use Rattle.std.specs.Prelude.{ℕ};
    ghost use Rattle.tilt_units.specs.Scale.{IsScale};

    ghost Value = { ℕ };

    ghost view = { λ s. s.parts };

    ghost invariant = { λ s. IsScale s.parts };

    ghost inverse = { λ n. record { parts = n } };
}

impl Scale {
    /// The scale of this many parts, or `None` exactly if it isn't from 1 to 9223372036854775807.
    pub fn new(parts: u64) -> Option<Scale>
        ensures { MatchOption result (¬ (IsScale parts)) (λ scale. (scale ≡ parts) × IsScale parts) }
    {
        if 1 <= parts && parts < 1 << 63 {
            Some(Scale { parts })
        } else {
            None
        }
    }

    /// The scale of whole numbers.
    pub fn one() -> Scale
        ensures { result ≡ 1 }
    {
        Scale { parts: 1 }
    }

    /// The number of parts.
    pub fn parts(self) -> u64
        ensures parts { result ≡ self }
        ensures bounds { IsScale self }
    {
        self.parts
    }
}
