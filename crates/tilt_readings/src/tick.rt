// Moments and ticks.
ghost use Rattle.std.specs.Prelude.{◌≡◌, pos, neg_ℤ, ◌+ℤ◌, ◌≤ℤ◌, ◌<ℤ◌, ◌<◌, MatchOption};
ghost use Rattle.tilt_base.specs.declared.limits.TheConstants.{T};
ghost use Rattle.tilt_readings.specs.Tick.{IsInReach, IsInTick, moment_at};

use tilt_base::T;

/// A moment is a whole number of nanoseconds since 1970-01-01T00:00:00Z. Moments farther from it than this are no readings.
pub const FARTHEST: i128 = 1_000_000_000_000_000_000_000_000_000_000_000_000;

/// Which end of a tick belongs to it.
#[derive(Clone, Copy, Debug, PartialEq, Eq)]
pub enum Closed {
    /// A moment between two ticks belongs to the one that starts there.
    Left,
    /// It belongs to the one that ends there.
    Right,
}

/// How moments become ticks. The tick `k` is the stretch from `k - 1` to `k` lengths after the origin.
#[derive(Clone, Copy, Debug, PartialEq, Eq)]
pub struct Clock {
    /// The moment at which the tick 1 starts.
    pub origin: i128,
    /// The length of a tick in nanoseconds, from 1 on.
    pub length: u64,
    pub closed: Closed,
}

/// The tick that a moment lies in, or `None` if it is in none of the ticks from `1 - T` to `T`. The row of a reading at that moment is from
/// the tick before to this one.
pub fn tick_of(clock: Clock, moment: i128) -> Option<i64>
    requires { 0 < clock.length }
    ensures { MatchOption result
        (¬ (IsInReach clock moment))
        (λ tick. IsInTick clock tick moment × (neg_ℤ T <ℤ tick) × (tick ≤ℤ T)) }
{
    let start = start_of(clock, moment)?;
    if -i128::from(T) <= start && start < i128::from(T) {
        Some(next_tick(start))
    } else {
        None
    }
}

// The tick after so many.
fn next_tick(start: i128) -> i64
    requires low { neg_ℤ T ≤ℤ start }
    requires high { start <ℤ T }
    ensures { result ≡ start +ℤ pos 1 }
{
    start as i64 + 1
}

// How many whole ticks there are from the origin to a moment: up to it, or up to just before it if ticks are closed on the right.
fn start_of(clock: Clock, moment: i128) -> Option<i128>
    requires { 0 < clock.length }
    ensures { MatchOption result (¬ (IsInReach clock moment)) (λ start. IsInTick clock (start +ℤ pos 1) moment) }
{
    let since = moment.checked_sub(clock.origin)?;
    let inside = match clock.closed {
        Closed::Left => since,
        Closed::Right => since.checked_sub(1)?,
    };
    Some(inside.div_euclid(i128::from(clock.length)))
}

/// The moment at which a tick ends and the next one starts. The row `start,end` is the time from `moment_at(clock, start)` to
/// `moment_at(clock, end)`.
pub fn moment_at(clock: Clock, tick: i64) -> i128
    requires low { neg_ℤ FARTHEST ≤ℤ clock.origin }
    requires high { clock.origin ≤ℤ FARTHEST }
    requires tick_low { neg_ℤ T ≤ℤ tick }
    requires tick_high { tick ≤ℤ T }
    ensures { result ≡ moment_at clock tick }
{
    clock.origin + i128::from(tick) * i128::from(clock.length)
}
