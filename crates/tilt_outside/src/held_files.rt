// Files in memory, by name.
ghost use Rattle.std.specs.Prelude.{◌≡◌, ◌≤◌, ◌-◌, ◌++◌, ◌↔◌, length, take, drop, min, position, option_copied, OnOk, OnErr};
ghost use Rattle.std.specs.Bool.{IsFalse, OnTrue, OnFalse};
ghost use Rattle.std.specs.Str.{bytes_eq};
ghost use Rattle.tilt_outside.specs.HeldFiles.{bytes_held, HasNoRoom, room_of, HoldsInstead};

use crate::held_file::HeldFile;
use std::alloc::AllocError as OutOfMemory;

// The place of the file of that name.
fn place_of(files: &[HeldFile], name: &str) -> Option<usize>
    ensures { result ≡ position (λ file. bytes_eq file.name name.now) files.now }
{
    files.iter().position(|file| file.is_named(name))
}

/// What the file of that name holds.
pub(crate) fn find_bytes<'a>(files: &'a [HeldFile], name: &str) -> Option<&'a [u8]>
    ensures { option_copied result ≡ bytes_held files.now name.now }
{
    let place = place_of(files, name)?;
    let file = &files[place];
    Some(file.bytes())
}

/// How many bytes the file of that name may have, and 0 if there is none.
pub(crate) fn find_room(files: &[HeldFile], name: &str) -> usize
    ensures { result ≡ room_of files.now name.now }
{
    match place_of(files, name) {
        Some(place) => {
            let file = &files[place];
            file.room()
        }
        None => 0,
    }
}

/// Replaces the file of its name by the file, or appends it after all if there is none.
pub(crate) fn put_file(
    files: &mut Vec<HeldFile>,
    name: &str,
    file: HeldFile,
) -> Result<(), OutOfMemory>
    requires { file.name ≡ name.now }
    ensures held { OnOk result (HoldsInstead files.old.items files.new.items name.now file.bytes file.room) }
    ensures err { OnErr result (files.new.items ≡ files.old.items) }
{
    match place_of(files, name) {
        Some(place) => files[place] = file,
        None => files.push(file)?,
    }
    Ok(())
}

/// Replaces the bytes that the name holds by these, if it is held and they fit its room.
pub(crate) fn replace_bytes(files: &mut Vec<HeldFile>, name: &str, bytes: &[u8]) -> bool
    ensures refused { IsFalse result ↔ HasNoRoom files.old.items name.now (length bytes.now) }
    ensures held { OnTrue result (HoldsInstead files.old.items files.new.items name.now bytes.now
        (room_of files.old.items name.now)) }
    ensures unchanged { OnFalse result (files.new.items ≡ files.old.items) }
{
    match place_of(files, name) {
        Some(place) => {
            let file = &mut files[place];
            if bytes.len() > file.room() {
                return false;
            }
            file.replace(bytes);
            true
        }
        None => false,
    }
}

/// How many bytes there are from a place on, and fit a room of that size.
pub(crate) fn count_from(bytes: &[u8], at: u64, room: usize) -> usize
    ensures { result ≡ min room (length bytes.now - at) }
{
    let start = bytes.len().min(at as usize);
    room.min(bytes.len() - start)
}

/// Copies that many bytes from a place on into the beginning of the room.
pub(crate) fn copy_from(bytes: &[u8], at: u64, count: usize, room: &mut [u8])
    requires in_room { count ≤ length room.old }
    requires there { count ≤ length bytes.now - at }
    ensures { room.new ≡ take count (drop at bytes.now) ++ drop count room.old }
{
    let start = bytes.len().min(at as usize);
    room[..count].copy_from_slice(&bytes[start..start + count]);
}
