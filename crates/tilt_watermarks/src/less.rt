// Ticks before ticks.
ghost use Rattle.std.specs.Prelude.{◌≡◌};
ghost use Rattle.tilt_watermarks.specs.Held.{less, less_late};

use tilt_base::T;

// A tick less so many ticks, at least `-T`.
pub(crate) fn less(ticks: u64, tick: i64) -> i64
    ensures { result ≡ less ticks tick }
{
    tick.saturating_sub_unsigned(ticks).max(-T)
}

// A tick less the lateness, if there is one.
pub(crate) fn less_late(lateness: Option<u64>, tick: i64) -> i64
    ensures { result ≡ less_late lateness tick }
{
    match lateness {
        Some(ticks) => less(ticks, tick),
        None => tick,
    }
}
