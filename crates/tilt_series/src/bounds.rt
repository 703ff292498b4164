// Where a row of a series may start.
ghost use Rattle.std.specs.Prelude.{◌≡◌, ◌≤ℤ◌, neg_ℤ};
ghost use Rattle.std.specs.Bool.{OnFalse, OnTrue};
ghost use Rattle.std.specs.Option.{ForSome};
ghost use Rattle.tilt_base.specs.declared.limits.TheConstants.{T};
ghost use Rattle.tilt_series.specs.Series.{bounds_after, is_below, is_past, is_time};
ghost use Rattle.tilt_series.specs.Stretch.{FitsBounds};

use std::marker::Model;
use tilt_base::T;
use tilt_stream::Rows;

/// Where a row may start: each bound applies if it is given.
#[derive(Clone, Copy)]
pub struct Bounds {
    /// Not below the end of the row before.
    pub last_end: Option<i64>,
    /// Not below this tick.
    pub from: Option<i64>,
    /// Below this tick.
    pub upto: Option<i64>,
}

impl Model for Bounds {
    ghost use Rattle.tilt_series.specs.Series.{Bounds as BoundsValue};

    ghost Value = { BoundsValue };

    ghost view = { λ b. record { last_end = b.last_end; from = b.from; upto = b.upto } };

    ghost inverse = { λ b. record { last_end = b.last_end; from = b.from; upto = b.upto } };
}

impl Bounds {
    /// The bounds of a row that comes after some rows.
    pub(crate) fn after(&self, rows: &Rows) -> Bounds
        ensures { result ≡ bounds_after self.now rows.now }
    {
        Bounds {
            last_end: rows.last_end().or(self.last_end),
            ..*self
        }
    }
}

/// Where a row has no fault of its times: one that doesn't start below `low`, and doesn't end above `high`.
#[derive(Clone, Copy)]
pub(crate) struct Stretch {
    pub(crate) low: i64,
    pub(crate) high: i64,
}

/// Where the first row has no fault by any bound.
pub(crate) fn free_stretch(bounds: &Bounds) -> Stretch
    ensures { FitsBounds bounds.now result.low result.high }
{
    let last_end = bounds.last_end.unwrap_or(-T);
    let from = bounds.from.unwrap_or(-T);
    let upto = bounds.upto.unwrap_or(T);
    Stretch {
        low: last_end.max(from).max(-T),
        high: upto.min(T),
    }
}

/// Whether the tick is below the bound; without a bound it isn't.
#[inline]
pub(crate) fn is_below(tick: i64, bound: Option<i64>) -> bool
    ensures value { result ≡ is_below tick bound }
    ensures not_below { OnFalse result (ForSome bound (λ b. b ≤ℤ tick)) }
{
    match bound {
        Some(bound) => tick < bound,
        None => false,
    }
}

/// Whether the tick is at the bound or above it; without a bound it isn't.
#[inline]
pub(crate) fn is_past(tick: i64, bound: Option<i64>) -> bool
    ensures { result ≡ is_past tick bound }
{
    match bound {
        Some(bound) => bound <= tick,
        None => false,
    }
}

/// Whether the tick lies in `-T..=T`.
#[inline]
pub(crate) fn is_time(tick: i64) -> bool
    ensures value { result ≡ is_time tick }
    ensures within { OnTrue result ((neg_ℤ T ≤ℤ tick) × (tick ≤ℤ T)) }
{
    -T <= tick && tick <= T
}
