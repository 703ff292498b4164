// Numbers of a unit since 1970.
ghost use Rattle.std.specs.Prelude.{◌≡◌, ◌<◌, neg_ℤ};
ghost use Rattle.tilt_readings.specs.Decimal.{bounded, number_at};
ghost use Rattle.tilt_readings.specs.Epoch.{nanoseconds};

use crate::decimal::read_bounded;
use crate::fault::DecimalFault;
use crate::tick::FARTHEST;

/// What a number since 1970 counts.
#[derive(Clone, Copy, Debug, PartialEq, Eq)]
pub enum Unit {
    Seconds,
    Milliseconds,
    Microseconds,
    Nanoseconds,
}

/// The moment that a number of a unit since 1970-01-01T00:00:00Z is, in nanoseconds. The number is a decimal as `read_decimal` reads it,
/// with a point. The errors, in this order: `NotDecimal` for any other text, `NotWhole` if the moment isn't a whole number of nanoseconds,
/// and `OutOfRange` if it is farther from 1970 than `FARTHEST`.
pub fn read_epoch(text: &[u8], unit: Unit) -> Result<i128, DecimalFault>
    ensures { result ≡ bounded (neg_ℤ FARTHEST) FARTHEST (number_at 46 (nanoseconds unit) text.now) }
{
    read_bounded(text, b'.', scale_of(unit), -FARTHEST, FARTHEST)
}

// The nanoseconds of a unit.
fn scale_of(unit: Unit) -> u64
    ensures value { result ≡ nanoseconds unit }
    ensures some { 0 < result }
{
    match unit {
        Unit::Seconds => 1_000_000_000,
        Unit::Milliseconds => 1_000_000,
        Unit::Microseconds => 1_000,
        Unit::Nanoseconds => 1,
    }
}
