// What calls changed of a folder in memory.
ghost use Rattle.std.specs.Prelude.{◌≡◌, ◌++◌, ◌∷◌, [], length, OnErr, OnOk};
ghost use Rattle.tilt_store.specs.Kept as step;
ghost use Rattle.tilt_store.specs.Kept.{Replaced, Torn};
ghost use Rattle.tilt_store.specs.Changes.{HasNoted};
ghost use Rattle.tilt_store.specs.MemFolder.{kept_of};

use crate::contents::{Contents, copy};
use std::alloc::{AllocError as OutOfMemory, Global};

/// What one call changed.
#[derive(Drop)]
pub(crate) enum Change {
    /// These bytes were appended at a place.
    Append(usize, Vec<u8>),
    /// The output was cut to a length.
    Cut(u64),
    /// The state was replaced by these bytes.
    Replace(Vec<u8>),
    /// These contents were synced.
    Sync(Contents),
}

pub(crate) fn note_append(
    alloc: Global,
    changes: &mut Vec<Change>,
    at: usize,
    bytes: &[u8],
) -> Result<(), OutOfMemory>
    ensures noted { OnOk result (HasNoted (Torn at (length bytes.now)) changes.old.items changes.new.items) }
    ensures err { OnErr result (changes.new.items ≡ changes.old.items) }
{
    let copied = bytes.to_vec(alloc)?;
    changes.push(Change::Append(at, copied))?;
    Ok(())
}

pub(crate) fn note_cut(changes: &mut Vec<Change>, len: u64) -> Result<(), OutOfMemory>
    ensures noted { OnOk result (HasNoted (step.Cut len) changes.old.items changes.new.items) }
    ensures err { OnErr result (changes.new.items ≡ changes.old.items) }
{
    changes.push(Change::Cut(len))?;
    Ok(())
}

pub(crate) fn note_replace(
    alloc: Global,
    changes: &mut Vec<Change>,
    bytes: &[u8],
) -> Result<(), OutOfMemory>
    ensures noted { OnOk result (HasNoted (Replaced bytes.now) changes.old.items changes.new.items) }
    ensures err { OnErr result (changes.new.items ≡ changes.old.items) }
{
    let copied = bytes.to_vec(alloc)?;
    changes.push(Change::Replace(copied))?;
    Ok(())
}

pub(crate) fn note_sync(
    alloc: Global,
    changes: &mut Vec<Change>,
    contents: &Contents,
) -> Result<(), OutOfMemory>
    ensures noted { OnOk result (HasNoted (λ _ c. c ≡ kept_of contents.now) changes.old.items changes.new.items) }
    ensures err { OnErr result (changes.new.items ≡ changes.old.items) }
{
    let copied = copy(alloc, contents)?;
    changes.push(Change::Sync(copied))?;
    Ok(())
}
