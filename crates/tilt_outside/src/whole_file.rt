// A whole file, read piece by piece.
ghost use Rattle.std.specs.Prelude.{◌≡◌, ◌<◌, ◌≤◌, ◌+◌, ◌^◌, ◌++◌, ◌⊎◌, length, take, drop, IfOk, IsErrOf};
ghost use Rattle.tilt_outside.specs.Counts.{added_count};
ghost use Rattle.tilt_outside.specs.Faults.{Rose};
ghost use Rattle.tilt_outside.specs.Reads.{OnlyReads};
ghost use Rattle.tilt_outside.specs.declared.whole_file.ReadAllFault.TheVariants.{ReadFault, OutOfMemory};

use crate::failed::Failed;
use crate::shelf::Shelf;
use std::alloc::{AllocError, Global};
use thiserror::Error;

/// How many bytes one read asks for at most. They are copied once more, so that they should stay in the nearest cache.
const PIECE: usize = 8192;

/// Why a file wasn't read whole.
#[derive(Debug, Drop, PartialEq, Eq, Error)]
pub enum ReadAllFault {
    /// The file has more bytes than the limit.
    #[error("the file is too long")]
    TooLong,
    /// A read failed. The shelf's count of read faults rose.
    #[error("the file could not be read")]
    ReadFault,
    /// There was no memory for the bytes.
    #[error("out of memory")]
    OutOfMemory,
}

impl From<Failed> for ReadAllFault {
    ghost from_gives = { λ _ fault. fault ≡ ReadFault };

    fn from(_: Failed) -> Self {
        ReadAllFault::ReadFault
    }
}

impl From<AllocError> for ReadAllFault {
    ghost from_gives = { λ _ fault. fault ≡ OutOfMemory };

    fn from(_: AllocError) -> Self {
        ReadAllFault::OutOfMemory
    }
}

/// Reads the whole file of that name, which may have up to `limit` bytes. It takes at most one byte more. `TooLong` comes
/// if that many were taken, `ReadFault` if a read failed, and `OutOfMemory` if there was no memory for the bytes. It
/// changes no name.
pub fn read_all<S: Shelf>(
    alloc: Global,
    shelf: &mut S,
    name: &str,
    limit: u64,
) -> Result<Vec<u8>, ReadAllFault>
    requires lent { S.lends name.now }
    requires limit { limit < 2 ^ 63 }
    ensures whole { S.tells → IfOk result (λ bytes. bytes.items ≡ S.files shelf.old name.now) }
    ensures short { IfOk result (λ bytes. length bytes.items ≤ limit) }
    ensures too_long { S.tells → IsErrOf result ReadAllFault.TooLong → limit < length (S.files shelf.old name.now) }
    ensures read_fault { IsErrOf result ReadAllFault.ReadFault → Rose (S.read_faults shelf.old) (S.read_faults shelf.new) }

    // How many bytes were taken, whether the shelf has a model of them or not, as far as the count goes.
    ensures taken { IfOk result (λ bytes. S.given shelf.new ≡ added_count (S.given shelf.old) (length bytes.items)) }
    ensures passed { IsErrOf result ReadAllFault.TooLong → S.given shelf.new ≡ added_count (S.given shelf.old) (limit + 1) }
    ensures only_passed { S.given shelf.new ≡ S.given shelf.old + (limit + 1)
        → IsErrOf result ReadAllFault.TooLong ⊎ IsErrOf result ReadAllFault.OutOfMemory }
    ensures most { S.given shelf.new ≤ S.given shelf.old + (limit + 1) }

    // The shelf after it, whatever the result.
    ensures rest { OnlyReads S.files S.read_faults S.save_faults S.takes shelf.old shelf.new }
{
    let mut room = make_room(alloc, PIECE)?;
    let bytes = take_up_to(alloc, shelf, name, limit + 1, &mut room)?;
    if bytes.len() as u64 > limit {
        return Err(ReadAllFault::TooLong);
    }
    Ok(bytes)
}

// Memory that reads can fill.
fn make_room(alloc: Global, size: usize) -> Result<Vec<u8>, AllocError>
    ensures { IfOk result (λ room. length room.items ≡ size) }
{
    vec![in alloc; 0u8; size]
}

// The first bytes of the file, up to `most`, which isn't 0.
fn take_up_to<S: Shelf>(
    alloc: Global,
    shelf: &mut S,
    name: &str,
    most: u64,
    room: &mut [u8],
) -> Result<Vec<u8>, ReadAllFault>
    requires lent { S.lends name.now }
    requires space { 0 < length room.old }
    requires some { 0 < most }
    ensures front { S.tells → IfOk result (λ bytes. bytes.items ≡ take most (S.files shelf.old name.now)) }
    ensures bound { IfOk result (λ bytes. length bytes.items ≤ most) }
    ensures too_long { IsErrOf result ReadAllFault.TooLong → ⊥ }
    ensures read_fault { IsErrOf result ReadAllFault.ReadFault → Rose (S.read_faults shelf.old) (S.read_faults shelf.new) }
    ensures taken { IfOk result (λ bytes. S.given shelf.new ≡ added_count (S.given shelf.old) (length bytes.items)) }
    ensures unfinished { IsErrOf result ReadAllFault.ReadFault → S.given shelf.new < S.given shelf.old + most }
    ensures most { S.given shelf.new ≤ S.given shelf.old + most }
    ensures rest { OnlyReads S.files S.read_faults S.save_faults S.takes shelf.old shelf.new }
{
    let mut bytes = Vec::new(alloc);
    while (bytes.len() as u64) < most {
        let wanted = (most - bytes.len() as u64).min(room.len() as u64) as usize;
        let taken = take_piece(shelf, name, &mut bytes, &mut room[..wanted])?;
        if taken == 0 {
            return Ok(bytes);
        }
    }
    Ok(bytes)
}

// Appends what one read from after the bytes gives, and returns how many: 0 only at the end.
fn take_piece<S: Shelf>(
    shelf: &mut S,
    name: &str,
    bytes: &mut Vec<u8>,
    room: &mut [u8],
) -> Result<usize, ReadAllFault>
    requires lent { S.lends name.now }
    requires space { 0 < length room.old }
    ensures count { IfOk result (λ n. length bytes.new.items ≡ length bytes.old.items + n) }
    ensures bound { IfOk result (λ n. n ≤ length room.old) }
    ensures piece { S.tells → IfOk result (λ n. bytes.new.items
        ≡ bytes.old.items ++ take n (drop (length bytes.old.items) (S.files shelf.old name.now))) }
    ensures end { S.tells → IfOk result (λ n. n ≡ 0
        → length (S.files shelf.old name.now) ≤ length bytes.old.items) }
    ensures too_long { IsErrOf result ReadAllFault.TooLong → ⊥ }
    ensures read_fault { IsErrOf result ReadAllFault.ReadFault → Rose (S.read_faults shelf.old) (S.read_faults shelf.new) }
    ensures taken { IfOk result (λ n. S.given shelf.new ≡ added_count (S.given shelf.old) n) }
    ensures nothing { IsErrOf result ReadAllFault.ReadFault → S.given shelf.new ≡ S.given shelf.old }
    ensures most { S.given shelf.new ≤ S.given shelf.old + length room.old }
    ensures rest { OnlyReads S.files S.read_faults S.save_faults S.takes shelf.old shelf.new }
{
    let taken = shelf.read_at(name, bytes.len() as u64, room)?;
    bytes.extend_from_slice(&room[..taken])?;
    Ok(taken)
}
