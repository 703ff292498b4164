// What a crash leaves of the changes that no sync followed.
ghost use Rattle.std.specs.Prelude.{◌≡◌, ◌≤◌, ◌⊎◌, List, ℕ, length, IfOk, OnOk};
ghost use Rattle.tilt_store.specs.Kept as step;
ghost use Rattle.tilt_store.specs.Kept.{Torn};
ghost use Rattle.tilt_store.specs.MemFolder.{after_all, at_first, changes, kept_of};

use crate::change::Change;
use crate::contents::{Contents, copy};
use std::alloc::{AllocError as OutOfMemory, Global};

/// What a crash leaves of the output's changes that no sync followed.
#[derive(Clone, Copy, Debug, PartialEq, Eq)]
pub enum Tear {
    /// None of them.
    Nothing,
    /// The first half of each append, rounded down, and each cut.
    Half,
    /// Each append with zeros in place of its bytes, and each cut.
    Zeros,
    /// All of them.
    Whole,
}

/// What a crash leaves of the contents after all changes. `is_replaced` says whether it leaves replacements of the state that no sync
/// followed.
pub(crate) fn replay(
    alloc: Global,
    first: &Contents,
    changes: &[Change],
    tear: Tear,
    is_replaced: bool,
) -> Result<Contents, OutOfMemory>
    ensures { IfOk result (λ contents. after_all (at_first first.now) changes.now (kept_of contents)) }
{
    let mut contents = copy(alloc, first)?;
    for change in changes {
        tear_change(alloc, &mut contents, change, tear, is_replaced)?;
    }
    Ok(contents)
}

// Makes of the contents what a crash leaves after one change more.
fn tear_change(
    alloc: Global,
    contents: &mut Contents,
    change: &Change,
    tear: Tear,
    is_replaced: bool,
) -> Result<(), OutOfMemory>
    ensures { OnOk result (changes change.now (kept_of contents.old) (kept_of contents.new)) }
{
    match change {
        Change::Append(at, bytes) => tear_append(alloc, &mut contents.output, *at, bytes, tear),
        Change::Cut(len) => {
            tear_cut(&mut contents.output, *len, tear);
            Ok(())
        }
        Change::Replace(bytes) => tear_replacement(alloc, &mut contents.state, bytes, is_replaced),
        Change::Sync(synced) => {
            *contents = copy(alloc, synced)?;
            Ok(())
        }
    }
}

fn tear_append(
    alloc: Global,
    output: &mut Vec<u8>,
    at: usize,
    bytes: &[u8],
    tear: Tear,
) -> Result<(), OutOfMemory>
    ensures { OnOk result ((state : List ℕ) → Torn at (length bytes.now)
        (record { output = output.old.items; state = state }) (record { output = output.new.items; state = state })) }
{
    match tear {
        Tear::Nothing => Ok(()),
        Tear::Half => append_torn(output, at, bytes.len(), &bytes[..bytes.len() / 2]),
        Tear::Zeros => {
            let zeros = make_zeros(alloc, bytes.len())?;
            append_torn(output, at, bytes.len(), &zeros)
        }
        Tear::Whole => append_torn(output, at, bytes.len(), bytes),
    }
}

fn make_zeros(alloc: Global, count: usize) -> Result<Vec<u8>, OutOfMemory>
    ensures { IfOk result (λ zeros. length zeros.items ≡ count) }
{
    vec![in alloc; 0; count]
}

// Appends a piece of an append of so many bytes at a place, unless more is there than before that append.
fn append_torn(
    output: &mut Vec<u8>,
    at: usize,
    count: usize,
    piece: &[u8],
) -> Result<(), OutOfMemory>
    requires { length piece.now ≤ count }
    ensures { OnOk result ((state : List ℕ) → Torn at count
        (record { output = output.old.items; state = state }) (record { output = output.new.items; state = state })) }
{
    if output.len() > at {
        return Ok(());
    }
    output.extend_from_slice(piece)
}

fn tear_cut(output: &mut Vec<u8>, len: u64, tear: Tear)
    ensures { (state : List ℕ) → step.Cut len
        (record { output = output.old.items; state = state }) (record { output = output.new.items; state = state }) }
{
    if tear != Tear::Nothing {
        output.truncate(len as usize);
    }
}

fn tear_replacement(
    alloc: Global,
    state: &mut Vec<u8>,
    bytes: &[u8],
    is_replaced: bool,
) -> Result<(), OutOfMemory>
    ensures { OnOk result ((state.new.items ≡ state.old.items) ⊎ (state.new.items ≡ bytes.now)) }
{
    if is_replaced {
        *state = bytes.to_vec(alloc)?;
    }
    Ok(())
}
