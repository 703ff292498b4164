// The output of a key.
ghost use Rattle.std.specs.Prelude.{◌≡◌, ◌++◌, ◌∷◌, [], OnOk};
ghost use Rattle.tilt_keyed_line.specs.Outputs.{key_line, with_key};

use std::alloc::AllocError as OutOfMemory;
use tilt_text::{put, until};

/// Appends the lines of an output, with a key and a comma before each of them. Bytes after the last LF are no line. Nothing is said of the
/// text if memory ran out.
pub fn put_with_key(text: &mut Vec<u8>, key: &[u8], output: &[u8]) -> Result<(), OutOfMemory>
    ensures { OnOk result (text.new.items ≡ text.old.items ++ with_key key.now output.now) }
{
    let mut rest = output;
    while let Some((line, after)) = until(rest, b'\n') {
        put_line(text, key, line)?;
        rest = after;
    }
    Ok(())
}

// Appends a line, with a key and a comma before it.
fn put_line(text: &mut Vec<u8>, key: &[u8], line: &[u8]) -> Result<(), OutOfMemory>
    ensures { OnOk result (text.new.items ≡ text.old.items ++ (key_line key.now line.now ++ 10 ∷ [])) }
{
    put(text, key)?;
    put(text, b",")?;
    put(text, line)?;
    put(text, b"\n")
}
