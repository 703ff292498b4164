// Times as texts.
ghost use Rattle.std.specs.Prelude.{◌≡◌, ◌≤◌, ◌+◌, ◌++◌, take, true, false, MatchOption};
ghost use Rattle.tilt_readings.specs.Tick.{moment_at};
ghost use Rattle.tilt_row_text.specs.Dates.{is_in_years, moment_text};
ghost use Rattle.tilt_row_text.specs.Decimals.{second_decimals};
ghost use Rattle.tilt_row_text.specs.Lines.{date_or_tick, time_text};

use crate::decimals::second_decimals;
use crate::piece::append_piece;
use crate::times::Times;
use tilt_readings::{Clock, write_date};
use tilt_text::append_number;

// Writes a time after the first `at` bytes, and returns where it ends.
pub(crate) fn append_time(times: Times, tick: i64, room: &mut [u8; 256], at: usize) -> usize
    requires { at + 64 ≤ 256 }
    ensures end { result ≤ at + 64 }
    ensures text { take result room.new ≡ take at room.old ++ time_text times tick }
{
    let mut small = [0; 64];
    let length = write_time(times, tick, &mut small);
    append_piece(room, at, &small[..length])
}

// Writes a time to the start of the room, and returns its length.
fn write_time(times: Times, tick: i64, room: &mut [u8; 64]) -> usize
    ensures end { result ≤ 64 }
    ensures text { take result room.new ≡ time_text times tick }
{
    match times {
        Times::Ticks => append_number(room, 0, tick),
        Times::Dates { clock } => write_date_or_tick(clock, tick, room),
    }
}

// Writes the date at the end of a tick to the start of the room, or the tick, and returns its length.
fn write_date_or_tick(clock: Clock, tick: i64, room: &mut [u8; 64]) -> usize
    ensures end { result ≤ 64 }
    ensures text { take result room.new ≡ date_or_tick (second_decimals clock) (moment_at clock tick) tick }
{
    match write_date_at(clock, tick, room) {
        Some(end) => end,
        None => append_number(room, 0, tick),
    }
}

// Writes the date at the end of a tick to the start of the room, and returns its length; `None` if it isn't in the years of dates.
fn write_date_at(clock: Clock, tick: i64, room: &mut [u8; 64]) -> Option<usize>
    ensures { MatchOption result
        (is_in_years (moment_at clock tick) ≡ false)
        (λ end. (end ≤ 64) × (is_in_years (moment_at clock tick) ≡ true)
        × (take end room.new ≡ moment_text (second_decimals clock) (moment_at clock tick))) }
{
    let moment = moment_of(clock, tick)?;
    match write_date(moment, second_decimals(clock), room) {
        Some(end) => Some(end),
        None => None,
    }
}

// The moment at which a tick ends; `None` if it has more than 128 bits.
fn moment_of(clock: Clock, tick: i64) -> Option<i128>
    ensures { MatchOption result (is_in_years (moment_at clock tick) ≡ false) (λ moment. moment ≡ moment_at clock tick) }
{
    clock
        .origin
        .checked_add(i128::from(tick) * i128::from(clock.length))
}
