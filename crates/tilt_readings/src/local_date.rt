// Dates with a time of day and without an offset.
ghost use Rattle.std.specs.Prelude.{◌≡◌, ◌≤◌, ◌*ℤ◌, ◌+ℤ◌, ◌≤ℤ◌, neg_ℤ, pos, drop, length, true};
ghost use Rattle.tilt_readings.specs.Date.{is_fraction, year_of};
ghost use Rattle.tilt_readings.specs.LocalDate.{is_local_date, local_date_read};

use crate::date::{
    days_of, has_shape, has_time, is_fraction, nanoseconds_of, pair_at, time_of, without_zone,
    year_of,
};
use crate::fault::DateFault;

/// A time that clocks show, before it is known where they are.
#[derive(Clone, Copy, Debug, PartialEq, Eq)]
pub struct LocalDate {
    /// The whole seconds since 1970-01-01T00:00:00 on the clocks, as if every day had 86,400 seconds.
    pub seconds: i64,
    /// The nanoseconds of the fraction.
    pub nanoseconds: u64,
}

/// The local time that a date with a time and without an offset is: `2026-03-01T08:00:00`, and a fraction of a second if there is one. A
/// blank may be in place of the `T`, and a comma in place of the point.
/// The errors, in this order: `NotDate` for any other text; `NoSuchTime` if the calendar has no such day or a clock no such time. Then
/// `TooFine` if the fraction isn't a whole number of nanoseconds.
pub fn read_local_date(text: &[u8]) -> Result<LocalDate, DateFault>
    ensures { result ≡ local_date_read text.now }
{
    if !is_local_date(text) {
        return Err(DateFault::NotDate);
    }
    let Some(days) = days_of(year_of(text), pair_at(text, 5), pair_at(text, 8)) else {
        return Err(DateFault::NoSuchTime);
    };
    if !has_time(text) {
        return Err(DateFault::NoSuchTime);
    }
    let Some(nanoseconds) = nanoseconds_of(after_seconds(text)) else {
        return Err(DateFault::TooFine);
    };
    Ok(LocalDate {
        seconds: local_seconds(days, time_of(text)),
        nanoseconds,
    })
}

// Whether a text has the form of a date, a time of day, and a fraction if there is one.
fn is_local_date(text: &[u8]) -> bool
    ensures date { result ≡ is_local_date text.now }
    ensures long { result ≡ true → 19 ≤ length text.now }
    ensures year { result ≡ true → year_of text.now ≤ 9999 }
    ensures fraction { result ≡ true → is_fraction (drop 19 text.now) ≡ true }
{
    if text.len() < 19 {
        return false;
    }
    has_shape(b"0000-00-00T00:00:00", without_zone(text)) && is_fraction(after_seconds(text))
}

// What is after the seconds.
fn after_seconds(text: &[u8]) -> &[u8]
    requires { 19 ≤ length text.now }
    ensures { result.now ≡ drop 19 text.now }
{
    &text[19..]
}

// The seconds since 1970 on the clocks.
fn local_seconds(days: i64, time: u32) -> i64
    requires low { neg_ℤ (pos 10_000_000) ≤ℤ days }
    requires high { days ≤ℤ pos 10_000_000 }
    ensures { result ≡ days *ℤ pos 86400 +ℤ pos time }
{
    days * 86400 + i64::from(time)
}
