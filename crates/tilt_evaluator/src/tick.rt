// Tests of a tick, and the grid point above it. Ticks have 128 bits here, since shifts may lead far outside 64.
ghost use Rattle.std.specs.Prelude.{◌≡◌, pos, ◌+ℤ◌, ◌^◌, ◌≤ℤ◌, neg_ℤ};
ghost use Rattle.std.specs.Ordering.{int_eq};
ghost use Rattle.tilt_base.specs.Grid.{ceil};
ghost use Rattle.tilt_stream.specs.Domain.{lies_in};

use tilt_base::{Grid, Span};

/// Whether the tick is the one after this one.
pub fn follows(before: i64, tick: i128) -> bool
    ensures { result ≡ int_eq tick (before +ℤ pos 1) }
{
    tick == i128::from(before) + 1
}

/// Whether the tick lies in the span.
pub fn lies_in(span: Span, tick: i128) -> bool
    ensures { result ≡ lies_in span.start span.end tick }
{
    i128::from(span.start) < tick && tick <= i128::from(span.end)
}

/// The smallest grid point that isn't below the tick.
pub fn ceil(grid: Grid, tick: i128) -> i128
    requires low { neg_ℤ (pos (2 ^ 98)) ≤ℤ tick }
    requires high { tick ≤ℤ pos (2 ^ 98) }
    ensures value { result ≡ ceil grid tick }
    ensures above { tick ≤ℤ result }
    ensures near { result ≤ℤ (tick +ℤ pos (2 ^ 63)) }
{
    tick + (i128::from(grid.offset) - tick).rem_euclid(i128::from(grid.period))
}
