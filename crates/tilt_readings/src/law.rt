// Laws of the definitions.
ghost use Rattle.std.specs.Prelude.{◌≡◌, ◌≢◌, ◌*◌, Bool, Some, Err, ◌<◌, ℤ, pos, ◌-ℤ◌, ℕ, ◌^◌, FitsSigned, Ok};
ghost use Rattle.std.specs.Prelude.{◌+◌, ◌≤◌, ◌+ℤ◌, ◌≤ℤ◌};
ghost use Rattle.std.specs.Int.{w64};
ghost use Rattle.jiff_core.specs.Calendar.{days_from_civil, days_in_month};
ghost use Rattle.tilt_readings.specs.Decimal.{Decimal, in_64_bits, number_at, signed, times};
ghost use Rattle.tilt_readings.specs.Written.{decimal_text};
ghost use Rattle.tilt_readings.specs.Tick.{IsInTick, moment_at};
ghost use Rattle.tilt_readings.specs.declared.fault.DecimalFault.TheVariants as fault;
ghost use Rattle.tilt_readings.specs.declared.tick.Clock.{Clock};
ghost use Rattle.tilt_readings.specs.declared.tick.Closed.TheVariants as closed;

/// This does nothing. Its clauses are laws of the definitions. A moment lies in one tick only, and the moment at the end of a tick that
/// belongs to it lies in that tick. So the tick of that moment is that tick.
pub fn ticks_are_apart()
    ensures one { (clock : Clock) (j k moment : ℤ) → IsInTick clock j moment → IsInTick clock k moment → j ≡ k }
    ensures start { (clock : Clock) (tick : ℤ) → 0 < clock.length → clock.closed ≡ closed.Left
        → IsInTick clock tick (moment_at clock (tick -ℤ pos 1)) }
    ensures end { (clock : Clock) (tick : ℤ) → 0 < clock.length → clock.closed ≡ closed.Right
        → IsInTick clock tick (moment_at clock tick) }
{}

/// This does nothing. Its clauses are laws of the definitions. A number whose multiple of a power of ten is the digits times the scale is
/// what a decimal is at that scale. If digits would be lost, there is no such number. So nothing is rounded.
pub fn decimals_are_exact()
    ensures exact { (negative : Bool) (scale n : ℕ) (d : Decimal) → n * 10 ^ d.decimals ≡ d.digits * scale
        → times negative scale (Some d) ≡ Ok (signed negative n) }
    ensures lost { (negative : Bool) (scale n : ℕ) (d : Decimal) → times negative scale (Some d) ≡ Err fault.NotWhole
        → n * 10 ^ d.decimals ≢ d.digits * scale }
{}

/// This does nothing. Its clause is a law of the definitions: what `write_decimal` writes is read as the same number at the same scale.
pub fn written_decimals_are_read_back()
    ensures { (decimals : ℕ) (value : ℤ) → FitsSigned w64 value
        → in_64_bits (number_at 46 (10 ^ decimals) (decimal_text decimals value)) ≡ Ok value }
{}

/// This does nothing. Its clauses are laws of the days that `read_date` counts with. 1 January 1970 is the day 0, and each day of a month,
/// of a year and of the next year is one after the day before. How many days a month has is `days_in_month` of `jiff_core`.
pub fn days_follow_one_another()
    ensures first { days_from_civil (pos 1970) 1 1 ≡ pos 0 }
    ensures day { (year : ℤ) (month day : ℕ) → 1 ≤ day
        → days_from_civil year month (day + 1) ≡ days_from_civil year month day +ℤ pos 1 }
    ensures month { (year : ℤ) (month : ℕ) → 1 ≤ month
        → days_from_civil year (month + 1) 1 ≡ days_from_civil year month (days_in_month year month) +ℤ pos 1 }
    ensures year { (year : ℤ) → pos 1 ≤ℤ year → days_from_civil (year +ℤ pos 1) 1 1 ≡ days_from_civil year 12 31 +ℤ pos 1 }
{}
