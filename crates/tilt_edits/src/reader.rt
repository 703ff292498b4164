// From a text to the edits that it says.
ghost use Rattle.std.specs.Prelude.{◌≡◌, ◌≢◌, ◌⊎◌, ◌<◌, ◌^◌, ◌++◌, ℕ, List, [], ◌∷◌, length, option_map, IfOk, IfErr, OnOk, MatchResult};
ghost use Rattle.std.specs.List.{AllByRecursion};
ghost use Rattle.tilt_edits.specs.Edited.{IsEditOf};
ghost use Rattle.tilt_edits.specs.Edits.{AreEdits, IsBadLine};
ghost use Rattle.tilt_edits.specs.Reading.{next_edit, Tells};
ghost use Rattle.tilt_edits.specs.declared.edit.Edit.{Edit};
ghost use Rattle.tilt_edits.specs.declared.fault.EditFault.{EditFault};
ghost use Rattle.tilt_lexer.specs.Word.{AreDistinct};

use crate::edit::Edit;
use crate::fault::EditFault;
use crate::line::edit_of;
use std::alloc::{AllocError as OutOfMemory, Global};
use tilt_lexer::Name;
use tilt_text::until;

/// The edits that the text says, one in each line: `add NAME s,e,v`, `remove NAME s,e` or `set NAME s,e,v`, with one blank between words.
/// `NAME` is one of these names of inputs, which differ; the times are ticks in `-T..=T`, in order; an empty `v` is null. `BadEdit` comes
/// exactly if a line isn't so, or text follows the last end of a line; it names the first such line.
pub fn read_edits(alloc: Global, bytes: &[u8], inputs: &[Name]) -> Result<Vec<Edit>, EditFault>
    requires few { length inputs.now < 2 ^ 32 }
    requires distinct { AreDistinct inputs.now }
    ensures edits { IfOk result (λ edits. AreEdits inputs.now bytes.now edits.items) }
    ensures each { IfOk result (λ edits. AllByRecursion (IsEditOf (length inputs.now)) edits.items) }
    ensures faulty { IfErr result (λ fault. fault ≢ EditFault.OutOfMemory → (line : ℕ) × (fault ≡ EditFault.BadEdit line)
        × IsBadLine inputs.now bytes.now line) }

    // Nothing else is: no other edits, and no other line.
    ensures only { (edits : List Edit) → AreEdits inputs.now bytes.now edits →
        MatchResult result (λ found. found.items ≡ edits) (λ fault. fault ≡ EditFault.OutOfMemory) }
    ensures first { (line : ℕ) → IsBadLine inputs.now bytes.now line →
        MatchResult result (λ _. ⊥) (λ fault. (fault ≡ EditFault.BadEdit line) ⊎ (fault ≡ EditFault.OutOfMemory)) }
{
    read_lines(alloc, bytes, inputs)
}

// The edits that the lines say, or the first bad line. Room is made once all lines are known to be edits, and for no more than these.
fn read_lines(alloc: Global, bytes: &[u8], inputs: &[Name]) -> Result<Vec<Edit>, EditFault>
    requires { length inputs.now < 2 ^ 32 }
    ensures { MatchResult result (λ edits. AreEdits inputs.now bytes.now edits.items) (Tells inputs.now bytes.now) }
{
    let count = count_edits(bytes, inputs)?;
    let edits = collect_edits(alloc, bytes, inputs, count)?;
    Ok(edits)
}

// How many lines the text has, each of which is an edit; else the first bad line.
fn count_edits(bytes: &[u8], inputs: &[Name]) -> Result<usize, EditFault>
    requires { length inputs.now < 2 ^ 32 }
    ensures { MatchResult result (λ count. (edits : List Edit) × AreEdits inputs.now bytes.now edits × (length edits ≡ count))
        (Tells inputs.now bytes.now) }
{
    let mut count = 0;
    let mut left = bytes;
    while !left.is_empty() {
        let Some((_, rest)) = next_edit(left, inputs) else {
            return Err(EditFault::BadEdit {
                line: count as u64 + 1,
            });
        };
        count += 1;
        left = rest;
    }
    Ok(count)
}

// The edits of a text that has so many, and no bad line.
fn collect_edits(
    alloc: Global,
    bytes: &[u8],
    inputs: &[Name],
    count: usize,
) -> Result<Vec<Edit>, OutOfMemory>
    requires few { length inputs.now < 2 ^ 32 }
    requires some { (edits : List Edit) × AreEdits inputs.now bytes.now edits }
    ensures { IfOk result (λ edits. AreEdits inputs.now bytes.now edits.items) }
{
    let mut edits = Vec::with_capacity(alloc, count)?;
    let mut left = bytes;
    while let Some((edit, rest)) = next_edit(left, inputs) {
        put_edit(&mut edits, edit)?;
        left = rest;
    }
    Ok(edits)
}

// Appends an edit to the others. Nothing is said of them if memory ran out.
fn put_edit(edits: &mut Vec<Edit>, edit: Edit) -> Result<(), OutOfMemory>
    ensures { OnOk result (edits.new.items ≡ edits.old.items ++ edit ∷ []) }
{
    edits.push(edit)?;
    Ok(())
}

// The edit in the first line, and what follows that line; `None` if it is no edit, or isn't ended.
fn next_edit<'a>(bytes: &'a [u8], inputs: &[Name]) -> Option<(Edit, &'a [u8])>
    requires { length inputs.now < 2 ^ 32 }
    ensures { option_map (λ next. (next.0, next.1.now)) result ≡ next_edit inputs.now bytes.now }
{
    let (line, rest) = until(bytes, b'\n')?;
    let edit = edit_of(line, inputs)?;
    Some((edit, rest))
}
