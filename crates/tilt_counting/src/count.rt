// How many rows a text has, and how that is reported.
ghost use Rattle.std.specs.Prelude.{◌≡◌, ◌++◌, ℕ, codes};
ghost use Rattle.std.specs.Fmt.{decimal};
ghost use Rattle.tilt_counting.specs.Count.{count_report, line_count};
ghost use Rattle.tilt_outside.specs.Written.{Puts};
ghost use Rattle.tilt_serving.specs.Reported.{Reported};

use itoa::Buffer;
use tilt_outside::{Failed, Sink};

// How many lines a text has.
pub(crate) fn count_lines(text: &[u8]) -> u64
    ensures { result ≡ line_count text.now }
{
    text.iter().filter(|byte| **byte == b'\n').count() as u64
}

// Reports how many rows there are, if there are some.
pub(crate) fn report_count<E: Sink>(err: &mut E, count: u64)
    requires { (n : ℕ) → E.takes err.old n }
    ensures line { Reported E.tells E.written E.faults err.old err.new (count_report count) }
    ensures takes { (n : ℕ) → E.takes err.new n }
{
    if count > 0 {
        // A fault of the sink changes nothing.
        let _ = put_count(err, count);
    }
}

// Writes the line with a count.
fn put_count<E: Sink>(err: &mut E, count: u64) -> Result<(), Failed>
    requires { (n : ℕ) → E.takes err.old n }
    ensures { Puts E.tells E.written E.faults E.takes err.old err.new
        (codes "tilt: 121 results left 64 bits: " ++ (decimal count ++ codes "\n")) result }
{
    put(err, b"tilt: 121 results left 64 bits: ")?;
    put_rest(err, count)
}

// Writes a number, and the end of the line.
fn put_rest<E: Sink>(err: &mut E, number: u64) -> Result<(), Failed>
    requires { (n : ℕ) → E.takes err.old n }
    ensures { Puts E.tells E.written E.faults E.takes err.old err.new (decimal number ++ codes "\n") result }
{
    put_number(err, number)?;
    put(err, b"\n")
}

// Writes a number.
fn put_number<E: Sink>(err: &mut E, number: u64) -> Result<(), Failed>
    requires { (n : ℕ) → E.takes err.old n }
    ensures { Puts E.tells E.written E.faults E.takes err.old err.new (decimal number) result }
{
    let mut buffer = Buffer::new();
    put(err, buffer.format(number).as_bytes())
}

// Writes a text.
fn put<E: Sink>(err: &mut E, text: &[u8]) -> Result<(), Failed>
    requires { (n : ℕ) → E.takes err.old n }
    ensures { Puts E.tells E.written E.faults E.takes err.old err.new text.now result }
{
    err.put(text)
}
