// Durations.
ghost use Rattle.std.specs.Prelude.{◌≡◌, ◌<◌, ◌≤◌, length};
ghost use Rattle.std.specs.Char.{is_ascii_digit};
ghost use Rattle.std.specs.List.{prefix_len};
ghost use Rattle.std.specs.Option.{ForSome};
ghost use Rattle.tilt_reading_options.specs.Duration.{duration_said, ticks_said, times, unit_length, whole_ticks};

use crate::whole::read_whole;

// The longest duration, in nanoseconds.
const LONGEST: u64 = 9_223_372_036_854_775_807;

// The nanoseconds of a duration: a whole number above 0 and a unit.
pub(crate) fn read_duration(text: &[u8]) -> Option<u64>
    ensures value { result ≡ duration_said text.now }
    ensures some { ForSome result (λ duration. 0 < duration) }
{
    let (digits, unit) = text.split_at(count_digits(text));
    let count = read_whole(digits, LONGEST)?;
    times(count, unit_length(unit)?)
}

// How many digits a text starts with.
fn count_digits(text: &[u8]) -> usize
    ensures count { result ≡ prefix_len is_ascii_digit text.now }
    ensures few { result ≤ length text.now }
{
    text.iter().take_while(|byte| byte.is_ascii_digit()).count()
}

// The nanoseconds of a unit.
fn unit_length(unit: &[u8]) -> Option<u64>
    ensures { result ≡ unit_length unit.now }
{
    match unit {
        b"ns" => Some(1),
        b"us" => Some(1_000),
        b"ms" => Some(1_000_000),
        b"s" => Some(1_000_000_000),
        b"min" => Some(60_000_000_000),
        b"h" => Some(3_600_000_000_000),
        b"d" => Some(86_400_000_000_000),
        _ => None,
    }
}

// So many times a length, if that isn't too long.
fn times(count: u64, length: u64) -> Option<u64>
    ensures value { result ≡ times count length }
    ensures some { ForSome result (λ duration. 0 < duration) }
{
    let duration = count.checked_mul(length)?;
    if 1 <= duration && duration <= LONGEST {
        Some(duration)
    } else {
        None
    }
}

// How many ticks of a length a duration is, if they are whole.
pub(crate) fn read_ticks(text: &[u8], tick: u64) -> Option<u64>
    requires { 0 < tick }
    ensures value { result ≡ ticks_said tick text.now }
    ensures some { ForSome result (λ age. 0 < age) }
{
    whole_ticks(read_duration(text)?, tick)
}

// How many ticks are in a duration, if they are whole.
fn whole_ticks(duration: u64, tick: u64) -> Option<u64>
    requires tick { 0 < tick }
    requires duration { 0 < duration }
    ensures value { result ≡ whole_ticks tick duration }
    ensures some { ForSome result (λ age. 0 < age) }
{
    if duration % tick == 0 {
        Some(duration / tick)
    } else {
        None
    }
}
