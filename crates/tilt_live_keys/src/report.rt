// The lines that report bad lines of a feed with keys. None takes memory.
ghost use Rattle.std.specs.Prelude.{◌≡◌, ◌++◌, ℕ};
ghost use Rattle.std.specs.Fmt.{decimal};
ghost use Rattle.tilt_live_keys.specs.Report.{key_front, key_reason, keyed_report};
ghost use Rattle.tilt_outside.specs.Written.{Puts};

use itoa::Buffer;
use tilt_feed_form as form;
use tilt_feed_form::BadFeedLine;
use tilt_keyed_line::KeyFault;
use tilt_keyed_run::BadKeyedLine;
use tilt_outside::{Failed, Sink};

// Writes the line that reports a bad line, by its number from 1 in the whole feed.
pub(crate) fn put_report<E: Sink>(
    err: &mut E,
    number: u64,
    why: BadKeyedLine<BadFeedLine>,
) -> Result<(), Failed>
    requires { (n : ℕ) → E.takes err.old n }
    ensures { Puts E.tells E.written E.faults E.takes err.old err.new (keyed_report number why) result }
{
    match why {
        BadKeyedLine::NoKey { why } => put_key_fault(err, number, why),
        BadKeyedLine::OfKey { why } => form::put_report(err, number, why),
    }
}

// Writes the line that reports a line without a key.
fn put_key_fault<E: Sink>(err: &mut E, number: u64, why: KeyFault) -> Result<(), Failed>
    requires { (n : ℕ) → E.takes err.old n }
    ensures { Puts E.tells E.written E.faults E.takes err.old err.new (key_front why ++ (decimal number ++ key_reason why)) result }
{
    put(err, key_front(why))?;
    put_from_number(err, number, why)
}

// Writes the number of the line, and what comes after it.
fn put_from_number<E: Sink>(err: &mut E, number: u64, why: KeyFault) -> Result<(), Failed>
    requires { (n : ℕ) → E.takes err.old n }
    ensures { Puts E.tells E.written E.faults E.takes err.old err.new (decimal number ++ key_reason why) result }
{
    put_number(err, number)?;
    put_reason(err, why)
}

// Writes a number.
fn put_number<E: Sink>(err: &mut E, number: u64) -> Result<(), Failed>
    requires { (n : ℕ) → E.takes err.old n }
    ensures { Puts E.tells E.written E.faults E.takes err.old err.new (decimal number) result }
{
    let mut buffer = Buffer::new();
    put(err, buffer.format(number).as_bytes())
}

// Writes what comes after the number of the line.
fn put_reason<E: Sink>(err: &mut E, why: KeyFault) -> Result<(), Failed>
    requires { (n : ℕ) → E.takes err.old n }
    ensures { Puts E.tells E.written E.faults E.takes err.old err.new (key_reason why) result }
{
    put(err, key_reason(why))
}

// Writes a text.
fn put<E: Sink>(err: &mut E, text: &[u8]) -> Result<(), Failed>
    requires { (n : ℕ) → E.takes err.old n }
    ensures { Puts E.tells E.written E.faults E.takes err.old err.new text.now result }
{
    err.put(text)
}

// What comes before the number of the line.
fn key_front(why: KeyFault) -> &'static [u8]
    ensures { result.now ≡ key_front why }
{
    match why {
        KeyFault::NoKey => b"tilt: 86 line ",
        KeyFault::BadKey => b"tilt: 87 line ",
    }
}

// What comes after it.
fn key_reason(why: KeyFault) -> &'static [u8]
    ensures { result.now ≡ key_reason why }
{
    match why {
        KeyFault::NoKey => b": no key\n",
        KeyFault::BadKey => b": bad key\n",
    }
}
