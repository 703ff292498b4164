// What a live engine says, written to a port.
ghost use Rattle.std.specs.Prelude.{◌≡◌, ◌∷◌, [], ℕ, length, drop, codes, Some, IfErr, IfOk, OnOk};
ghost use Rattle.tilt_compiler.specs.Accepted.{AcceptedParts};
ghost use Rattle.tilt_feed.specs.Feed.{Feed};
ghost use Rattle.tilt_feed.specs.Printed.{begun, printed};
ghost use Rattle.tilt_live.specs.Lives.{IsLive, IsLiveOf};
ghost use Rattle.tilt_live_run.specs.Adds.{Adds};
ghost use Rattle.tilt_live_run.specs.Output.{begun_lines, begun_news, begun_start, is_start};
ghost use Rattle.tilt_port.specs.Transcript.{Writes};
ghost use Rattle.tilt_stream.specs.Text.{row_text};
ghost use Rattle.tilt_row_text.specs.Lines.{lines_in};

use crate::stop::Stop;
use tilt_live::Live;
use tilt_outside::Failed;
use tilt_port::Port;
use tilt_row_text::{RowStyle, write_begun, write_row};
use tilt_series::row_text;
use tilt_stream::Snap;

// Writes the header.
pub(crate) fn write_header<P: Port>(port: &mut P) -> Result<(), Failed>
    ensures { Writes P.tells (P.transcript port.old) (P.transcript port.new) (codes "start,end,value\n") result }
{
    port.write(b"start,end,value\n")
}

// Writes the lines of the snapshots that can be printed and weren't.
pub(crate) fn show_final<P: Port>(
    live: &mut Live,
    style: RowStyle,
    port: &mut P,
) -> Result<(), Stop>
    requires { IsLive live.old }
    ensures shown { (accepted : AcceptedParts) (feed : Feed) (given : ℕ) → IsLiveOf live.old accepted feed given
        → Adds P.tells (P.transcript port.old) (P.transcript port.new) (lines_in style (drop given (printed accepted.core feed))) result }
    ensures goes_on { (accepted : AcceptedParts) (feed : Feed) (given : ℕ) → IsLiveOf live.old accepted feed given
        → OnOk result (IsLiveOf live.new accepted feed (length (printed accepted.core feed))) }
    ensures no_bad_line { IfErr result (λ stop. stop ≡ Stop.BadLine → ⊥) }
    ensures live { IsLive live.new }
{
    for _ in 0..u64::MAX {
        let Some(snap) = live.next()? else {
            return Ok(());
        };
        write_snap(style, &snap, port)?;
    }
    // No output has so many snapshots. If one had, the run would stop here.
    Err(Stop::OutOfMemory)
}

// Writes the line of a snapshot that isn't null.
fn write_snap<P: Port>(style: RowStyle, snap: &Snap, port: &mut P) -> Result<(), Failed>
    ensures { Writes P.tells (P.transcript port.old) (P.transcript port.new) (lines_in style (snap.now ∷ [])) result }
{
    if snap.value.is_none() {
        return Ok(());
    }
    if style.is_plain() {
        return write_plain(snap, port);
    }
    let mut room = [0; 256];
    let length = write_row(style, snap, &mut room);
    port.write(&room[..length])
}

// Writes the line of a snapshot with its times as ticks and its value as a whole number.
fn write_plain<P: Port>(snap: &Snap, port: &mut P) -> Result<(), Failed>
    ensures { Writes P.tells (P.transcript port.old) (P.transcript port.new) (row_text snap.now) result }
{
    let mut room = [0; 64];
    let length = row_text(snap, &mut room);
    port.write(&room[..length])
}

// Writes the line of what has begun, unless it had begun before, and returns where it starts.
pub(crate) fn show_begun<P: Port>(
    live: &mut Live,
    style: RowStyle,
    before: Option<i64>,
    port: &mut P,
) -> Result<Option<i64>, Stop>
    requires { IsLive live.old }
    ensures shown { (accepted : AcceptedParts) (feed : Feed) → IsLiveOf live.old accepted feed (length (printed accepted.core feed))
        → Adds P.tells (P.transcript port.old) (P.transcript port.new) (begun_news style before (begun accepted.core feed)) result }
    ensures goes_on { (accepted : AcceptedParts) (feed : Feed) → IsLiveOf live.old accepted feed (length (printed accepted.core feed))
        → IfOk result (λ start. (start ≡ begun_start (begun accepted.core feed))
        × IsLiveOf live.new accepted feed (length (printed accepted.core feed))) }
    ensures no_bad_line { IfErr result (λ stop. stop ≡ Stop.BadLine → ⊥) }
    ensures live { IsLive live.new }
{
    let Some((start, value)) = live.begun()? else {
        return Ok(None);
    };
    write_news(style, before, start, value, port)?;
    Ok(Some(start))
}

// Writes the line of a snapshot that has begun, unless it had begun before.
fn write_news<P: Port>(
    style: RowStyle,
    before: Option<i64>,
    start: i64,
    value: Option<i64>,
    port: &mut P,
) -> Result<(), Failed>
    ensures { Writes P.tells (P.transcript port.old) (P.transcript port.new)
        (begun_news style before (Some (record { start = start; value = value }))) result }
{
    if is_start(before, start) {
        return Ok(());
    }
    write_started(style, start, value, port)
}

// Whether it is this tick.
fn is_start(before: Option<i64>, start: i64) -> bool
    ensures { result ≡ is_start before start }
{
    match before {
        Some(tick) => tick == start,
        None => false,
    }
}

// Writes the line of a snapshot that has begun, if its value isn't null.
fn write_started<P: Port>(
    style: RowStyle,
    start: i64,
    value: Option<i64>,
    port: &mut P,
) -> Result<(), Failed>
    ensures { Writes P.tells (P.transcript port.old) (P.transcript port.new) (begun_lines style start value) result }
{
    let Some(value) = value else {
        return Ok(());
    };
    let mut room = [0; 256];
    let length = write_begun(style, start, value, &mut room);
    port.write(&room[..length])
}
