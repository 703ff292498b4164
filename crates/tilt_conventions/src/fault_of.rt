// Why turns aren't taken.
ghost use Rattle.std.specs.Prelude.{◌≡◌, true, Some};
ghost use Rattle.std.specs.Option.{ForSome};
ghost use Rattle.tilt_conventions.specs.Rows.{moved_past, start_of};
ghost use Rattle.tilt_conventions.specs.Steps.{is_in_range, is_reading_time, is_refused, is_tie, latest_after, placed, turn_start};
ghost use Rattle.tilt_conventions.specs.Steps.{unended};

use crate::handing::start_of;
use crate::options::Ties;
use crate::turn::{Reading, Turn};
use tilt_base::T;

// Whether all times of a turn are in range.
pub(crate) fn is_in_range(ties: Ties, latest: Option<Reading>, turn: Turn) -> bool
    requires { ForSome latest (λ reading. is_reading_time reading.tick ≡ true) }
    ensures { result ≡ is_in_range ties latest turn }
{
    match turn {
        Turn::Reading { reading } => {
            is_reading_time(reading.tick) && is_reading_time(placed(ties, latest, reading).tick)
        }
        Turn::KnownUpTo { watermark } => -T <= watermark && watermark <= T,
    }
}

// Whether a tick can be that of a reading.
pub(crate) fn is_reading_time(tick: i64) -> bool
    ensures { result ≡ is_reading_time tick }
{
    -T < tick && tick <= T
}

// A reading as it counts.
pub(crate) fn placed(ties: Ties, latest: Option<Reading>, reading: Reading) -> Reading
    requires { ForSome latest (λ reading. is_reading_time reading.tick ≡ true) }
    ensures { result ≡ placed ties latest reading }
{
    match (ties, latest) {
        (Ties::Spread, Some(latest)) => move_past(latest, reading),
        _ => reading,
    }
}

// A reading, moved to the tick after another one's if it isn't after that one.
fn move_past(other: Reading, reading: Reading) -> Reading
    requires { is_reading_time other.tick ≡ true }
    ensures { result ≡ moved_past (Some other.tick) reading }
{
    Reading {
        tick: reading.tick.max(other.tick + 1),
        value: reading.value,
    }
}

// Where a turn starts.
pub(crate) fn turn_start(ties: Ties, latest: Option<Reading>, turn: Turn) -> i64
    requires { is_in_range ties latest turn ≡ true }
    ensures { result ≡ turn_start turn }
{
    match turn {
        Turn::Reading { reading } => start_of(reading),
        Turn::KnownUpTo { watermark } => watermark,
    }
}

// Whether a reading is a second one in the tick of the latest.
pub(crate) fn is_tie(ties: Ties, latest: Option<Reading>, reading: Reading) -> bool
    ensures { result ≡ is_tie ties latest reading }
{
    match (ties, latest) {
        (Ties::Spread, _) => false,
        (_, Some(latest)) => latest.tick == reading.tick,
        (_, None) => false,
    }
}

// Whether a turn is a second reading in one tick that is refused.
pub(crate) fn is_refused(ties: Ties, latest: Option<Reading>, turn: Turn) -> bool
    ensures { result ≡ is_refused ties latest turn }
{
    match (ties, turn) {
        (Ties::Refuse, Turn::Reading { reading }) => is_tie(ties, latest, reading),
        _ => false,
    }
}

// The reading that counts after a reading.
pub(crate) fn latest_after(ties: Ties, reading: Reading, latest: Option<Reading>) -> Option<Reading>
    requires { ForSome latest (λ reading. is_reading_time reading.tick ≡ true) }
    ensures { result ≡ latest_after ties reading latest }
{
    if ties != Ties::Last && is_tie(ties, latest, reading) {
        latest
    } else {
        Some(placed(ties, latest, reading))
    }
}

// A reading, if its tick hasn't ended at a mark.
pub(crate) fn unended(mark: i64, latest: Option<Reading>) -> Option<Reading>
    requires { ForSome latest (λ reading. is_reading_time reading.tick ≡ true) }
    ensures { result ≡ unended mark latest }
{
    let reading = latest?;
    if mark == start_of(reading) {
        Some(reading)
    } else {
        None
    }
}
