// The state file's bytes: behind their seal, the length of the committed output in decimal, LF, and the caller's state.
ghost use Rattle.std.specs.Prelude.{◌≡◌, ◌<◌, ◌^◌, Some, None, MatchOption, IfOk};
ghost use Rattle.tilt_store.specs.Commit.{counted, length_spelled, spelled, uncounted, unspelled};

use crate::seal::{seal, unseal};
use std::alloc::{AllocError as OutOfMemory, Global};
use tilt_text::{put, put_number, shortest, until};

pub(crate) fn spell(alloc: Global, length: u64, state: &[u8]) -> Result<Vec<u8>, OutOfMemory>
    ensures { IfOk result (λ text. text.items ≡ spelled length state.now) }
{
    let text = spell_counted(alloc, length, state)?;
    seal(alloc, &text)
}

pub(crate) fn unspell(bytes: &[u8]) -> Option<(u64, &[u8])>
    ensures { MatchOption result (unspelled bytes.now ≡ None) (λ parts. unspelled bytes.now ≡ Some (parts.0, parts.1.now)) }
{
    read_counted(unseal(bytes)?)
}

/// A number in decimal, LF, and a text.
pub fn spell_counted(alloc: Global, count: u64, text: &[u8]) -> Result<Vec<u8>, OutOfMemory>
    ensures { IfOk result (λ bytes. bytes.items ≡ counted count text.now) }
{
    let mut bytes = Vec::new(alloc);
    put_number(&mut bytes, count)?;
    put(&mut bytes, b"\n")?;
    put(&mut bytes, text)?;
    Ok(bytes)
}

/// The number that the first line of bytes spells in shortest decimal, and the text behind that line. `None` if there is no LF, or the line
/// spells no number from 0 to 2^63 - 1.
pub fn read_counted(bytes: &[u8]) -> Option<(u64, &[u8])>
    ensures { MatchOption result (uncounted bytes.now ≡ None) (λ parts. uncounted bytes.now ≡ Some (parts.0, parts.1.now)) }
{
    let (line, text) = until(bytes, b'\n')?;
    let count = read_length(line)?;
    Some((count, text))
}

// The number that a line spells, if it isn't negative.
fn read_length(line: &[u8]) -> Option<u64>
    ensures { result ≡ length_spelled line.now }
{
    let number = shortest(line)?;
    u64::try_from(number).ok()
}
