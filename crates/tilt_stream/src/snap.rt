ghost use Rattle.std.specs.Prelude.{◌≡◌, ◌≤ℤ◌};
ghost use Rattle.tilt_stream.specs.Snap.{last_end};

use std::marker::Model;
use tilt_base::Cell;

/// A cell that holds on the ticks of `(start, end]`, which are `start + 1` to `end`.
#[derive(Clone, Copy, Debug, PartialEq, Eq)]
pub struct Snap {
    /// The tick before the first one, below `end`.
    pub start: i64,
    /// The last tick.
    pub end: i64,
    /// The value on these ticks, or null.
    pub value: Cell,
}

/// A line of a series: its value holds on the ticks of `(start, end]`.
pub type Row = Snap;

impl Model for Snap {
    ghost use Rattle.std.specs.Prelude.{◌<ℤ◌};
    ghost use Rattle.tilt_stream.specs.Snap.{Snapshot};

    ghost Value = { Snapshot };

    ghost view = { λ s. record { start = s.start; end = s.end; value = s.value } };

    ghost invariant = { λ s. s.start <ℤ s.end };

    ghost inverse = { λ s. record { start = s.start; end = s.end; value = s.value } };
}

impl Snap {
    // The same with that start, which isn't above its own.
    pub(crate) fn opened_at(self, open_start: i64) -> Snap
        requires { open_start ≤ℤ self.start }
        ensures { result ≡ record { start = open_start; end = self.end; value = self.value } }
    {
        prove!(self.start < self.end);
        let Snap { end, value, .. } = self;
        Snap {
            start: open_start,
            end,
            value,
        }
    }

    // The same with that value.
    pub(crate) fn valued(self, value: Cell) -> Snap
        ensures { result ≡ record { start = self.start; end = self.end; value = value } }
    {
        prove!(self.start < self.end);
        let Snap { start, end, .. } = self;
        Snap { start, end, value }
    }
}

/// The end of the last one, or `None` if there is none.
pub(crate) fn last_end(snaps: &[Snap]) -> Option<i64>
    ensures { result ≡ last_end snaps.now }
{
    let last = snaps.last()?;
    Some(last.end)
}
