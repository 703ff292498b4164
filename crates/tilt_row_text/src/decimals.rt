// How many decimals of a second dates need.
ghost use Rattle.std.specs.Prelude.{◌≡◌, ◌≤◌, ◌<◌};
ghost use Rattle.tilt_row_text.specs.Decimals.{is_whole, second_decimals};

use tilt_readings::Clock;

/// How many decimals of a second the ends of a clock's ticks have: 0, 3, 6 or 9. With so many, nothing of a date is left out.
pub fn second_decimals(clock: Clock) -> u8
    ensures value { result ≡ second_decimals clock }
    ensures few { result ≤ 9 }
{
    if is_whole(clock, 1_000_000_000) {
        0
    } else if is_whole(clock, 1_000_000) {
        3
    } else if is_whole(clock, 1_000) {
        6
    } else {
        9
    }
}

// Whether all ticks end at whole multiples of so many nanoseconds.
fn is_whole(clock: Clock, unit: u64) -> bool
    requires { 0 < unit }
    ensures { result ≡ is_whole clock unit }
{
    clock.length % unit == 0 && clock.origin.unsigned_abs() % u128::from(unit) == 0
}
