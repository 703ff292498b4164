// Laws of the definitions.
ghost use Rattle.std.specs.Prelude.{◌≡◌, ◌<◌, ◌≤ℤ◌, ◌<ℤ◌, neg_ℤ, ℤ, None, Some};
ghost use Rattle.tilt_base.specs.declared.limits.TheConstants.{T};
ghost use Rattle.tilt_reading_lines.specs.Tick.{tick_at};
ghost use Rattle.tilt_readings.specs.Tick.{IsInReach, IsInTick};
ghost use Rattle.tilt_readings.specs.declared.tick.Clock.{Clock};

/// This does nothing. Its clauses are laws of the definitions: a moment lies in the tick that `tick_at` is. If there is none, it lies in no
/// tick that a reading can have.
pub fn ticks_hold_their_moments()
    ensures tick { (clock : Clock) (moment tick : ℤ) → 0 < clock.length → tick_at clock moment ≡ Some tick
        → IsInTick clock tick moment × (neg_ℤ T <ℤ tick) × (tick ≤ℤ T) }
    ensures none { (clock : Clock) (moment : ℤ) → 0 < clock.length → tick_at clock moment ≡ None → ¬ (IsInReach clock moment) }
{}
