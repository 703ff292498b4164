// Lines that end with a name. None takes memory.
ghost use Rattle.std.specs.Prelude.{◌++◌, ℕ, codes};
ghost use Rattle.tilt_outside.specs.Written.{Puts};

use tilt_outside::{Failed, Sink};

// Writes a line: what comes before the name, and the name.
pub(crate) fn put_line<E: Sink>(err: &mut E, front: &[u8], name: &[u8]) -> Result<(), Failed>
    requires { (n : ℕ) → E.takes err.old n }
    ensures { Puts E.tells E.written E.faults E.takes err.old err.new (front.now ++ (name.now ++ codes "\n")) result }
{
    put(err, front)?;
    put_name(err, name)
}

// Writes a name, and the end of the line.
fn put_name<E: Sink>(err: &mut E, name: &[u8]) -> Result<(), Failed>
    requires { (n : ℕ) → E.takes err.old n }
    ensures { Puts E.tells E.written E.faults E.takes err.old err.new (name.now ++ codes "\n") result }
{
    put(err, name)?;
    put(err, b"\n")
}

// Writes a text.
fn put<E: Sink>(err: &mut E, text: &[u8]) -> Result<(), Failed>
    requires { (n : ℕ) → E.takes err.old n }
    ensures { Puts E.tells E.written E.faults E.takes err.old err.new text.now result }
{
    err.put(text)
}
