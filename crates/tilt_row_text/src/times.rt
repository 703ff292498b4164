use tilt_readings::Clock;

/// How the times of rows are written.
#[derive(Clone, Copy, Debug, PartialEq, Eq)]
pub enum Times {
    /// As ticks.
    Ticks,
    /// As dates with a time of day in UTC, by a clock, with the decimals of a second that its ticks need (`second_decimals`). A time
    /// outside the years 1 to 9999 is written as its tick.
    Dates { clock: Clock },
}
