// Grids, and their points below and above a tick.
ghost use Rattle.std.specs.Prelude.{◌≡◌, ◌^◌, ◌≤ℤ◌, ◌+ℤ◌, ◌*ℤ◌, pos, neg_ℤ, MatchOption};
ghost use Rattle.tilt_base.specs.declared.limits.TheConstants.{WIDE, OFFSET};
ghost use Rattle.tilt_base.specs.Grid.{IsGrid, IsCeil, IsFloor, ceil, floor, is_point};

use crate::limits::PERIOD;
use std::marker::Model;

/// The ticks at which an expression is taken: those that lie a multiple of the period from the offset.
#[derive(Clone, Copy, Debug, PartialEq, Eq)]
pub struct Grid {
    /// In ticks, from 1 to `PERIOD`.
    pub period: i64,
    /// In ticks, from 0 on and below the period.
    pub offset: i64,
}

impl Model for Grid {
    ghost use Rattle.tilt_base.specs.Grid.{GridPoints, IsGrid};

    ghost Value = { GridPoints };

    ghost view = { λ g. record { period = g.period; offset = g.offset } };

    ghost invariant = { λ g. IsGrid (record { period = g.period; offset = g.offset }) };

    ghost inverse = { λ g. record { period = g.period; offset = g.offset } };
}

impl Grid {
    /// The grid with this period and this offset, or `None` if they bound none.
    pub fn new(period: i64, offset: i64) -> Option<Grid>
        ensures { MatchOption result
            (¬ (IsGrid (record { period = period; offset = offset })))
            (λ grid. (grid ≡ record { period = period; offset = offset }) × IsGrid grid) }
    {
        if 1 <= period && period <= PERIOD && 0 <= offset && offset < period {
            Some(Grid { period, offset })
        } else {
            None
        }
    }

    /// The smallest grid point that isn't below the tick.
    #[inline]
    pub fn ceil(&self, tick: i64) -> i64
        requires low { neg_ℤ (WIDE +ℤ pos 4 *ℤ OFFSET) ≤ℤ tick }
        requires high { tick ≤ℤ (WIDE +ℤ pos 4 *ℤ OFFSET) }
        ensures least { IsCeil self.now tick result }
        ensures value { result ≡ ceil self.now tick }
    {
        if self.period == 1 {
            return tick;
        }
        tick + (self.offset - tick).rem_euclid(self.period)
    }

    /// The largest grid point that isn't above the tick.
    #[inline]
    pub fn floor(&self, tick: i64) -> i64
        requires low { neg_ℤ (WIDE +ℤ pos 4 *ℤ OFFSET) ≤ℤ tick }
        requires high { tick ≤ℤ (WIDE +ℤ pos 4 *ℤ OFFSET) }
        ensures greatest { IsFloor self.now tick result }
        ensures value { result ≡ floor self.now tick }
    {
        if self.period == 1 {
            return tick;
        }
        tick - (tick - self.offset).rem_euclid(self.period)
    }

    /// Whether the tick is a grid point. Ticks have 128 bits here, since shifts may lead far outside 64.
    pub fn is_point(&self, tick: i128) -> bool
        requires low { neg_ℤ (pos (2 ^ 98)) ≤ℤ tick }
        requires high { tick ≤ℤ pos (2 ^ 98) }
        ensures { result ≡ is_point self.now tick }
    {
        (tick - i128::from(self.offset)).rem_euclid(i128::from(self.period)) == 0
    }
}
