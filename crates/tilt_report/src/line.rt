// Pieces of the line that reports a fault. None takes memory.
ghost use Rattle.std.specs.Prelude.{◌++◌, ℕ};
ghost use Rattle.std.specs.Fmt.{decimal, signed_decimal};
ghost use Rattle.tilt_outside.specs.Written.{Puts};

use itoa::Buffer;
use tilt_outside::{Failed, Sink};

/// Writes a text.
pub(crate) fn put_text<E: Sink>(err: &mut E, text: &[u8]) -> Result<(), Failed>
    requires { (n : ℕ) → E.takes err.old n }
    ensures { Puts E.tells E.written E.faults E.takes err.old err.new
        text.now result }
{
    err.put(text)
}

/// Writes a text, and another after it.
pub(crate) fn put_named<E: Sink>(err: &mut E, text: &[u8], name: &[u8]) -> Result<(), Failed>
    requires { (n : ℕ) → E.takes err.old n }
    ensures { Puts E.tells E.written E.faults E.takes err.old err.new
        (text.now ++ name.now) result }
{
    put_text(err, text)?;
    put_text(err, name)
}

/// Writes a text, and a number after it.
pub(crate) fn put_counted<E: Sink>(err: &mut E, text: &[u8], number: u64) -> Result<(), Failed>
    requires { (n : ℕ) → E.takes err.old n }
    ensures { Puts E.tells E.written E.faults E.takes err.old err.new
        (text.now ++ decimal number) result }
{
    let mut buffer = Buffer::new();
    put_named(err, text, buffer.format(number).as_bytes())
}

/// Writes a text, and a number after it that may have a sign.
pub(crate) fn put_signed<E: Sink>(err: &mut E, text: &[u8], number: i128) -> Result<(), Failed>
    requires { (n : ℕ) → E.takes err.old n }
    ensures { Puts E.tells E.written E.faults E.takes err.old err.new
        (text.now ++ signed_decimal number) result }
{
    let mut buffer = Buffer::new();
    put_named(err, text, buffer.format(number).as_bytes())
}
