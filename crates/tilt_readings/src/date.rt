// Dates with a time of day and an offset.
ghost use Rattle.std.specs.Prelude.{◌≡◌, ◌+◌, ◌*◌, ◌≤◌, ◌<◌, ℤ, pos, neg_ℤ, ◌+ℤ◌, ◌-ℤ◌, ◌*ℤ◌, ◌≤ℤ◌, true, false};
ghost use Rattle.std.specs.Prelude.{length, take, drop, ◌&&◌, Ok, Err, MatchOption};
ghost use Rattle.jiff_core.specs.Calendar.{days_from_civil, days_in_month};
ghost use Rattle.tilt_readings.specs.Date.{date_read, fraction_of, has_day, has_offset, has_shape, has_time, is_date, is_fraction};
ghost use Rattle.tilt_readings.specs.Date.{is_shaped, is_zone, moment_of, nanoseconds_of, offset_of, pair_at, time_of};
ghost use Rattle.tilt_readings.specs.Date.{year_of, zone_length, zone_of};

use crate::digits::{are_digits, carry_of};
use crate::fault::{DateFault, DecimalFault};
use jiff_core::civil::{Date, days_in_month};

/// The moment that a date with a time and an offset is, in nanoseconds since 1970-01-01T00:00:00Z. The form is from RFC 3339:
/// `2026-03-01T08:00:00`, a fraction of a second if there is one, and `Z`, `z` or an offset such as `+01:00`. A blank may be in place of
/// the `T`, and a comma in place of the point.
/// The errors, in this order: `NotDate` for any other text; `NoSuchTime` if the calendar has no such day or a clock no such time or offset.
/// Then `TooFine` if the fraction isn't a whole number of nanoseconds, and `OutOfYears` if the date is outside the years 1 to 9999 in UTC.
pub fn read_date(text: &[u8]) -> Result<i128, DateFault>
    ensures { result ≡ date_read text.now }
{
    if !is_date(text) {
        return Err(DateFault::NotDate);
    }
    let Some(days) = days_of(year_of(text), pair_at(text, 5), pair_at(text, 8)) else {
        return Err(DateFault::NoSuchTime);
    };
    let zone = zone_of(text);
    if !has_clock(text, zone) {
        return Err(DateFault::NoSuchTime);
    }
    let Some(nanoseconds) = nanoseconds_of(fraction_of(text)) else {
        return Err(DateFault::TooFine);
    };
    moment_of(
        seconds_at(days, time_of(text), offset_of(zone)),
        nanoseconds,
    )
}

// Whether a text has the form of a date, a time of day, a fraction if there is one, and a zone.
fn is_date(text: &[u8]) -> bool
    ensures date { result ≡ is_date text.now }
    ensures long { result ≡ true → 19 + zone_length text.now ≤ length text.now }
    ensures year { result ≡ true → year_of text.now ≤ 9999 }
    ensures fraction { result ≡ true → is_fraction (fraction_of text.now) ≡ true }
{
    if text.len() < 19 + zone_length(text) {
        return false;
    }
    has_shape(b"0000-00-00T00:00:00", without_zone(text))
        && is_fraction(fraction_of(text))
        && is_zone(zone_of(text))
}

// A text up to the seconds.
pub(crate) fn without_zone(text: &[u8]) -> &[u8]
    requires { 19 ≤ length text.now }
    ensures { result.now ≡ take 19 text.now }
{
    &text[..19]
}

// Whether a text has a shape, byte by byte.
pub(crate) fn has_shape(shape: &[u8], text: &[u8]) -> bool
    ensures { result ≡ has_shape shape.now text.now }
{
    match shape {
        [] => text.is_empty(),
        [first, shapes @ ..] => match text {
            [] => false,
            [byte, bytes @ ..] => is_shaped(*first, *byte) && has_shape(shapes, bytes),
        },
    }
}

// Whether a byte is one that a byte of a shape stands for.
fn is_shaped(shape: u8, byte: u8) -> bool
    ensures { result ≡ is_shaped shape byte }
{
    match shape {
        b'0' => byte.is_ascii_digit(),
        b'T' => byte == b'T' || byte == b' ',
        b'+' => byte == b'+' || byte == b'-',
        b'Z' => byte == b'Z' || byte == b'z',
        _ => byte == shape,
    }
}

// How long the zone at the end of a text is.
fn zone_length(text: &[u8]) -> usize
    ensures { result ≡ zone_length text.now }
{
    match text {
        [.., b'Z' | b'z'] => 1,
        _ => 6,
    }
}

// The zone at the end of a text.
fn zone_of(text: &[u8]) -> &[u8]
    ensures { result.now ≡ zone_of text.now }
{
    &text[text.len().saturating_sub(zone_length(text))..]
}

// What is between the seconds and the zone.
fn fraction_of(text: &[u8]) -> &[u8]
    requires { 19 + zone_length text.now ≤ length text.now }
    ensures { result.now ≡ fraction_of text.now }
{
    &text[19..text.len() - zone_length(text)]
}

// Whether a zone is a Z alone, or an offset.
fn is_zone(zone: &[u8]) -> bool
    ensures { result ≡ is_zone zone.now }
{
    if zone.len() < 6 {
        has_shape(b"Z", zone)
    } else {
        has_shape(b"+00:00", zone)
    }
}

// Whether there is no fraction, or a mark and one or more digits.
pub(crate) fn is_fraction(fraction: &[u8]) -> bool
    ensures { result ≡ is_fraction fraction.now }
{
    match fraction {
        [] => true,
        [mark, digits @ ..] => (*mark == b'.' || *mark == b',')
            && !digits.is_empty()
            && are_digits(digits),
    }
}

// The nanoseconds of a fraction, or `None` if they aren't whole.
pub(crate) fn nanoseconds_of(fraction: &[u8]) -> Option<u64>
    requires { is_fraction fraction.now ≡ true }
    ensures { MatchOption result
        (nanoseconds_of fraction.now ≡ Err DecimalFault.NotWhole)
        (λ n. (nanoseconds_of fraction.now ≡ Ok (pos n)) × (n ≤ 1_000_000_000)) }
{
    let nanoseconds = carry_of(after_mark(fraction), 1_000_000_000)?;
    Some(nanoseconds as u64)
}

// The digits after the mark.
fn after_mark(fraction: &[u8]) -> &[u8]
    ensures { result.now ≡ drop 1 fraction.now }
{
    match fraction {
        [_, digits @ ..] => digits,
        [] => fraction,
    }
}

// The number that the two digits at a place spell.
pub(crate) fn pair_at(text: &[u8], at: usize) -> u32
    requires { at + 1 < length text.now }
    ensures value { result ≡ pair_at text.now at }
    ensures small { result ≤ 2277 }
{
    u32::from(text[at].saturating_sub(b'0')) * 10 + u32::from(text[at + 1].saturating_sub(b'0'))
}

// The year.
pub(crate) fn year_of(text: &[u8]) -> u32
    requires { 4 ≤ length text.now }
    ensures { result ≡ year_of text.now }
{
    pair_at(text, 0) * 100 + pair_at(text, 2)
}

// The days since 1970 of a day that the calendar has, from the year 1 on; `None` if it has no such day.
pub(crate) fn days_of(year: u32, month: u32, day: u32) -> Option<i64>
    requires { year ≤ 9999 }
    ensures { MatchOption result
        (has_day year month day ≡ false)
        (λ days. (has_day year month day ≡ true) × (days ≡ days_from_civil (pos year) month day)
        × (neg_ℤ (pos 10_000_000) ≤ℤ days) × (days ≤ℤ pos 10_000_000)) }
{
    if year < 1 || month < 1 || month > 12 || day < 1 || day > last_day(year, month) {
        return None;
    }
    let date = Date {
        year: year as i16,
        month: month as u8,
        day: day as u8,
    };
    Some(i64::from(date.to_unix_epoch_day()))
}

// The last day of a month.
fn last_day(year: u32, month: u32) -> u32
    requires year { year ≤ 9999 }
    requires month { month ≤ 12 }
    ensures { result ≡ days_in_month (pos year) month }
{
    u32::from(days_in_month(year as i16, month as u8))
}

// Whether a clock shows the time of day.
pub(crate) fn has_time(text: &[u8]) -> bool
    requires { 19 ≤ length text.now }
    ensures { result ≡ has_time text.now }
{
    pair_at(text, 11) < 24 && pair_at(text, 14) < 60 && pair_at(text, 17) < 60
}

// Whether a clock shows the time of day, and the zone has hours and minutes of a clock.
fn has_clock(text: &[u8], zone: &[u8]) -> bool
    requires { 19 ≤ length text.now }
    ensures { result ≡ (has_time text.now && has_offset zone.now) }
{
    has_time(text) && has_offset(zone)
}

// The seconds since midnight.
pub(crate) fn time_of(text: &[u8]) -> u32
    requires { 19 ≤ length text.now }
    ensures value { result ≡ time_of text.now }
    ensures small { result ≤ 10_000_000 }
{
    pair_at(text, 11) * 3600 + pair_at(text, 14) * 60 + pair_at(text, 17)
}

// Whether a zone has hours and minutes of a clock.
fn has_offset(zone: &[u8]) -> bool
    ensures { result ≡ has_offset zone.now }
{
    zone.len() < 6 || pair_at(zone, 1) < 24 && pair_at(zone, 4) < 60
}

// How far a zone is ahead of UTC, in seconds.
fn offset_of(zone: &[u8]) -> i64
    ensures value { result ≡ offset_of zone.now }
    ensures low { neg_ℤ (pos 10_000_000) ≤ℤ result }
    ensures high { result ≤ℤ pos 10_000_000 }
{
    if zone.len() < 6 {
        return 0;
    }
    let ahead = i64::from(pair_at(zone, 1) * 3600 + pair_at(zone, 4) * 60);
    if zone[0] == b'-' { -ahead } else { ahead }
}

// The seconds since 1970 in UTC.
fn seconds_at(days: i64, time: u32, offset: i64) -> i64
    requires days_low { neg_ℤ (pos 10_000_000) ≤ℤ days }
    requires days_high { days ≤ℤ pos 10_000_000 }
    requires offset_low { neg_ℤ (pos 10_000_000) ≤ℤ offset }
    requires offset_high { offset ≤ℤ pos 10_000_000 }
    ensures { result ≡ days *ℤ pos 86400 +ℤ pos time -ℤ offset }
{
    days * 86400 + i64::from(time) - offset
}

/// The moment of so many seconds and nanoseconds since 1970-01-01T00:00:00Z, in nanoseconds since then. `OutOfYears` if the seconds are
/// outside of the years 1 to 9999 in UTC.
pub fn moment_of(seconds: i64, nanoseconds: u64) -> Result<i128, DateFault>
    ensures { result ≡ moment_of seconds (Ok (pos nanoseconds)) }
{
    if -62_135_596_800 <= seconds && seconds < 253_402_300_800 {
        Ok(i128::from(seconds) * 1_000_000_000 + i128::from(nanoseconds))
    } else {
        Err(DateFault::OutOfYears)
    }
}
