use thiserror::Error;

/// Why a text gives no number. A reader returns the first cause in the order of this list.
#[derive(Clone, Copy, Debug, PartialEq, Eq, Error)]
pub enum DecimalFault {
    /// The text isn't a decimal: an optional sign and one or more digits, with at most one mark before, between or after them.
    #[error("a decimal was expected")]
    NotDecimal,
    /// The decimal times the scale isn't whole, so digits would be lost.
    #[error("digits would be lost")]
    NotWhole,
    /// The number is whole, and too large or too small.
    #[error("the number is out of range")]
    OutOfRange,
}

/// Why a text gives no date. `read_date` returns the first cause in the order of this list.
#[derive(Clone, Copy, Debug, PartialEq, Eq, Error)]
pub enum DateFault {
    /// The text doesn't have the form `2026-03-01T08:00:00`, a fraction if there is one, and `Z` or an offset.
    #[error("a date with a time and an offset was expected")]
    NotDate,
    /// The calendar has no such day, or a clock shows no such time or offset: a second is never 60.
    #[error("there is no such day or time")]
    NoSuchTime,
    /// The fraction isn't a whole number of nanoseconds.
    #[error("a time finer than a nanosecond")]
    TooFine,
    /// In UTC the date lies outside of the years 1 to 9999.
    #[error("the date is outside of the years 1 to 9999 in UTC")]
    OutOfYears,
}
