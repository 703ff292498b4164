// Intervals of numbers, and of numbers before it is known that 64 bits hold them.
ghost use Rattle.std.specs.Prelude.{◌≡◌};
ghost use Rattle.tilt_magnitudes.specs.Interval.{hull, only, truths};

use std::marker::Model;

/// The numbers from a low end to a high end. If the low end is above the high end, there are none.
#[derive(Clone, Copy, Debug, PartialEq, Eq)]
pub struct Interval {
    pub low: i64,
    pub high: i64,
}

impl Model for Interval {
    ghost use Rattle.tilt_magnitudes.specs.Interval as interval;

    ghost Value = { interval.Interval };

    ghost view = { λ i. record { low = i.low; high = i.high } };

    ghost inverse = { λ i. record { low = i.low; high = i.high } };
}

/// The same of numbers that may leave 64 bits. 128 bits hold what an operator or a reducer gives on numbers of 64 bits.
#[derive(Clone, Copy, Debug, PartialEq, Eq)]
pub struct WideInterval {
    pub low: i128,
    pub high: i128,
}

impl Model for WideInterval {
    ghost use Rattle.tilt_magnitudes.specs.Interval as interval;

    ghost Value = { interval.Interval };

    ghost view = { λ i. record { low = i.low; high = i.high } };

    ghost inverse = { λ i. record { low = i.low; high = i.high } };
}

/// One number alone.
pub(crate) fn only(number: i64) -> Interval
    ensures { result ≡ only number }
{
    Interval {
        low: number,
        high: number,
    }
}

/// 0 and 1.
pub(crate) fn truths() -> WideInterval
    ensures { result ≡ truths }
{
    WideInterval { low: 0, high: 1 }
}

/// The same interval, in 128 bits.
pub(crate) fn widen(a: Interval) -> WideInterval
    ensures { result ≡ a }
{
    WideInterval {
        low: i128::from(a.low),
        high: i128::from(a.high),
    }
}

/// The smallest interval around two.
pub(crate) fn hull(a: WideInterval, b: WideInterval) -> WideInterval
    ensures { result ≡ hull a b }
{
    WideInterval {
        low: a.low.min(b.low),
        high: a.high.max(b.high),
    }
}
