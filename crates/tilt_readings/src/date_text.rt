// Dates in UTC as texts.
ghost use Rattle.std.specs.Prelude.{◌≡◌, ◌+◌, ◌≤◌, ◌++◌, length, take, MatchOption};
ghost use Rattle.tilt_readings.specs.DateText.{IsDateText, IsInYears, date_text, day_text, fraction_text, time_text};

use crate::written::append_digits;
use jiff_core::civil::{Date, DateTime, Time};
use tilt_text::append;

// The first moment of the year 1, and of the year 10000.
const FIRST: i128 = -62_135_596_800_000_000_000;

const END: i128 = 253_402_300_800_000_000_000;

/// Writes the date and the time of day in UTC at a moment, with this many decimals of a second, such as `2026-03-01T08:00:00.250Z`. Further
/// decimals are left out. It is written to the start of the room; the result is its length. `None` if the moment isn't in the years 1 to
/// 9999.
pub fn write_date(moment: i128, decimals: u8, room: &mut [u8; 64]) -> Option<usize>
    requires { decimals ≤ 9 }
    ensures { MatchOption result
        (¬ (IsInYears moment))
        (λ end. IsInYears moment × (end ≤ 64) × IsDateText decimals moment (take end room.new)) }
{
    if moment < FIRST || moment >= END {
        return None;
    }
    let at = DateTime::from_nanosecond_in_range(moment);
    Some(write_civil(at, decimals, room))
}

// Writes a date and a time of day.
fn write_civil(at: DateTime, decimals: u8, room: &mut [u8; 64]) -> usize
    requires { decimals ≤ 9 }
    ensures end { result ≤ 64 }
    ensures text { take result room.new ≡ date_text decimals at }
{
    let day = write_day(at.date, room);
    let time = append_time(room, day, at.time);
    let fraction = append_fraction(room, time, at.time.subsec_nanosecond, decimals);
    append(room, fraction, b"Z")
}

// Writes a day.
fn write_day(date: Date, room: &mut [u8; 64]) -> usize
    ensures end { result ≡ 10 }
    ensures text { take result room.new ≡ day_text date }
{
    let year = append_digits(room, 0, u64::from(date.year.unsigned_abs()), 4);
    let first = append(room, year, b"-");
    let month = append_digits(room, first, u64::from(date.month), 2);
    let second = append(room, month, b"-");
    append_digits(room, second, u64::from(date.day), 2)
}

// Writes a time of day after the first `at` bytes.
fn append_time(room: &mut [u8; 64], at: usize, time: Time) -> usize
    requires { at + 9 ≤ 64 }
    ensures end { result ≡ at + 9 }
    ensures text { take result room.new ≡ take at room.old ++ time_text time }
{
    let start = append(room, at, b"T");
    let hour = append_digits(room, start, u64::from(time.hour), 2);
    let first = append(room, hour, b":");
    let minute = append_digits(room, first, u64::from(time.minute), 2);
    let second = append(room, minute, b":");
    append_digits(room, second, u64::from(time.second), 2)
}

// Writes the fraction of a second after the first `at` bytes.
fn append_fraction(room: &mut [u8; 64], at: usize, nanoseconds: u32, decimals: u8) -> usize
    requires few { decimals ≤ 9 }
    requires at { at + 10 ≤ 64 }
    ensures end { result ≤ at + 10 }
    ensures text { take result room.new ≡ take at room.old ++ fraction_text decimals nanoseconds }
{
    if decimals == 0 {
        return at;
    }
    let point = append(room, at, b".");
    append_digits(
        room,
        point,
        u64::from(nanoseconds / 10u32.pow(u32::from(9 - decimals))),
        decimals,
    )
}
