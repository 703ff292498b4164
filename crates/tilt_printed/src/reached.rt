// Which ticks each edit of rows reached, line by line.
ghost use Rattle.std.specs.Prelude.{◌≡◌, ◌≤◌, Some, length, take};
ghost use Rattle.std.specs.List.{flat_map};
ghost use Rattle.tilt_outside.specs.Written.{Puts};
ghost use Rattle.tilt_printed.specs.Reached.{reached_line};

use tilt_base::Span;
use tilt_outside::{Failed, Sink};
use tilt_text::{append, append_number};

// Writes a line for each edit.
pub(crate) fn put_reached<O: Sink>(out: &mut O, reached: &[Option<Span>]) -> Result<(), Failed>
    requires { O.takes out.old (length (flat_map reached_line reached.now)) }
    ensures { Puts O.tells O.written O.faults O.takes out.old out.new (flat_map reached_line reached.now) result }
{
    for span in reached {
        put_line(out, *span)?;
    }
    Ok(())
}

// Writes the line of an edit.
fn put_line<O: Sink>(out: &mut O, reached: Option<Span>) -> Result<(), Failed>
    requires { O.takes out.old (length (reached_line reached)) }
    ensures { Puts O.tells O.written O.faults O.takes out.old out.new (reached_line reached) result }
{
    match reached {
        Some(span) => put_span(out, span),
        None => out.put(b"reached none\n"),
    }
}

// Writes the line `reached LO HI`.
fn put_span<O: Sink>(out: &mut O, span: Span) -> Result<(), Failed>
    requires { O.takes out.old (length (reached_line (Some span))) }
    ensures { Puts O.tells O.written O.faults O.takes out.old out.new (reached_line (Some span)) result }
{
    let mut room = [0; 64];
    let length = span_text(span, &mut room);
    out.put(&room[..length])
}

// Writes `reached LO HI` and LF at the beginning of the room, and returns how long that is.
fn span_text(span: Span, room: &mut [u8; 64]) -> usize
    ensures text { take result room.new ≡ reached_line (Some span) }
    ensures len { result ≡ length (reached_line (Some span)) }
    ensures short { result ≤ 64 }
{
    let at = append(room, 0, b"reached ");
    let at = append_number(room, at, span.start);
    let at = append(room, at, b" ");
    let at = append_number(room, at, span.end);
    append(room, at, b"\n")
}
