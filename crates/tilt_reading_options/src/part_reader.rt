// Texts with a part for each of several names.
ghost use Rattle.std.specs.Prelude.{◌≡◌, ℕ, List, Option, Some, None, IfOk, if◌then◌else◌};
ghost use Rattle.tilt_reading_options.specs.Parts.{after_parts, name_in, text_in};
ghost use Rattle.tilt_reading_options.specs.Texts.{parts_of};

use std::alloc::{AllocError as OutOfMemory, Global};

/// What adds the parts of a text to a table. Code that is generic over it knows only this of it.
pub trait PartReader<T> {
    /// The table after a part, if it takes the part.
    ghost with_part: { Self → T → List ℕ → Option T };

    /// Adds what a part says. Returns `false` if it says nothing that the table takes.
    fn take_part(&self, alloc: Global, part: &str, table: &mut T) -> Result<bool, OutOfMemory>
        ensures { IfOk result (λ taken. (if taken then Some table.new else None) ≡ with_part self.now table.old part.now) };
}

/// Adds what the parts of a text say, between its commas. Returns `false` if one of them says nothing that the table takes. `OutOfMemory`
/// comes if memory runs out, and for no other reason.
pub fn take_parts<T, R: PartReader<T>>(
    alloc: Global,
    reader: &R,
    text: &str,
    table: &mut T,
) -> Result<bool, OutOfMemory>
    ensures { IfOk result (λ taken. (if taken then Some table.new else None)
        ≡ after_parts (R.with_part reader.now) table.old (parts_of text.now)) }
{
    for part in text.split(',') {
        if !reader.take_part(alloc, part, table)? {
            return Ok(false);
        }
    }
    Ok(true)
}

/// The name in a part, before its first `=`. Without one it is the whole part.
pub fn cut_name(part: &str) -> &str
    ensures { result.now ≡ name_in part.now }
{
    match part.split_once('=') {
        Some((name, _)) => name,
        None => part,
    }
}

/// The text in a part, behind its first `=`. Without one it is empty.
pub fn cut_text(part: &str) -> &str
    ensures { result.now ≡ text_in part.now }
{
    match part.split_once('=') {
        Some((_, text)) => text,
        None => "",
    }
}
