// A save that leaves the old bytes or the new ones under its name, at whichever moment the program ends.
use crate::beside::{path_beside, remove_left};
use crate::links::{find, followed, is_descriptor};
use crate::uninterrupted::again;
use std::alloc::Global;
use std::fs::{Metadata, OpenFile, OpenOptions, Permissions};
use std::io::{self, ErrorKind, Write};
use std::os::unix::fs::{MetadataExt, OpenOptionsExt, PermissionsExt};
use std::path::PathBuf;
use std::rt::Files;

/// The rights of a file's owner, in its mode.
const OF_OWNER: u32 = 0o700;

/// Those of all who are neither its owner nor in its group.
const OF_OTHERS: u32 = 0o007;

/// Makes the name hold these bytes. If its links lead to a regular file, or to none, a new file beside it takes its place
/// once it is whole and on the disk. The old file's rights are kept, and an old file that may not be written stays. What
/// is no regular file, and a file that the program was handed open, is written in place: if that fails, a prefix of the
/// bytes may have been written. `program` is a number that no other running program has.
pub(crate) fn save_whole<R: Files>(
    alloc: Global,
    files: &R,
    program: u32,
    name: &str,
    bytes: &[u8],
) -> io::Result<()> {
    let path = followed(alloc, files, name)?;
    match find(files, path.as_str())? {
        Some(old) if !old.is_file() || is_descriptor(&path) => {
            write_in_place(files, path.as_str(), bytes)
        }
        old => replace(alloc, files, program, &path, old.as_ref(), bytes),
    }
}

// Writes after what is there.
fn write_in_place<R: Files>(files: &R, path: &str, bytes: &[u8]) -> io::Result<()> {
    let mut file = OpenOptions::new().append(true).open(files, path)?;
    file.write_all(bytes)?;
    file.flush()
}

// Moves a new file into the place of the old one, if there is one. If that fails, the new file is deleted again.
fn replace<R: Files>(
    alloc: Global,
    files: &R,
    program: u32,
    path: &PathBuf,
    old: Option<&Metadata>,
    bytes: &[u8],
) -> io::Result<()> {
    let Some(name) = path.file_name() else {
        return Err(io::Error::from(ErrorKind::InvalidInput));
    };
    if old.is_some() {
        OpenOptions::new().write(true).open(files, path.as_str())?;
    }
    let folder = folder_of(path);
    remove_left(alloc, files, folder, name);
    let new = path_beside(alloc, path, name, program)?;
    let outcome = put_in_place(files, new.as_str(), path.as_str(), old, bytes);
    if outcome.is_err() {
        let _ = again(|| files.remove_file(new.as_str()));
        return outcome;
    }
    sync_folder(files, folder)
}

fn folder_of(path: &PathBuf) -> &str {
    match path.parent() {
        Some(folder) if !folder.as_str().is_empty() => folder.as_str(),
        _ => ".",
    }
}

fn put_in_place<R: Files>(
    files: &R,
    new: &str,
    path: &str,
    old: Option<&Metadata>,
    bytes: &[u8],
) -> io::Result<()> {
    write_new(files, new, old, bytes)?;
    again(|| files.rename(new, path))
}

// Makes the new file, with the rights of the old one, and waits until the disk has its bytes. Before it has its owner and its
// group, nobody but the program's user may open it.
fn write_new<R: Files>(
    files: &R,
    path: &str,
    old: Option<&Metadata>,
    bytes: &[u8],
) -> io::Result<()> {
    let mut options = OpenOptions::new();
    options.write(true).create_new(true);
    if let Some(old) = old {
        options.mode(rights_of(old) & OF_OWNER);
    }
    let mut file = options.open(files, path)?;
    if let Some(old) = old {
        let new = again(|| file.metadata())?;
        let is_group_kept = keep_owner(files, path, &new, old);
        keep_mode(&file, &new, old, is_group_kept)?;
    }
    file.write_all(bytes)?;
    file.flush()?;
    file.sync_all()
}

// Gives the file to the owner and the group of the old one, or to the group alone if the program may do no more. Whether
// the file has the old one's group then.
fn keep_owner<R: Files>(files: &R, path: &str, new: &Metadata, old: &Metadata) -> bool {
    let group = Some(old.gid());
    if new.uid() != old.uid() && again(|| files.chown(path, Some(old.uid()), group)).is_ok() {
        return true;
    }
    new.gid() == old.gid() || again(|| files.chown(path, None, group)).is_ok()
}

// Gives the file the mode of the old one, if it has another. A group that isn't the old one's gets no right that others don't have.
fn keep_mode<F: OpenFile>(
    file: &F,
    new: &Metadata,
    old: &Metadata,
    is_group_kept: bool,
) -> io::Result<()> {
    let mut rights = rights_of(old);
    if !is_group_kept {
        let of_group = (rights & OF_OTHERS) << 3;
        rights &= OF_OWNER | of_group | OF_OTHERS;
    }
    if rights_of(new) == rights {
        return Ok(());
    }
    file.set_permissions(Permissions::from_mode(rights))
}

fn rights_of(metadata: &Metadata) -> u32 {
    metadata.mode() & 0o7777
}

// Waits until the disk has the folder's names, if the folder can be opened and the file system can do that.
fn sync_folder<R: Files>(files: &R, folder: &str) -> io::Result<()> {
    match open_and_sync(files, folder) {
        Err(error) if is_beyond_us(error.kind()) => Ok(()),
        answer => answer,
    }
}

fn open_and_sync<R: Files>(files: &R, folder: &str) -> io::Result<()> {
    let folder = OpenOptions::new().read(true).open(files, folder)?;
    folder.sync_all()
}

// Whether the error says that this can't be done there at all.
fn is_beyond_us(kind: ErrorKind) -> bool {
    matches!(
        kind,
        ErrorKind::PermissionDenied | ErrorKind::Unsupported | ErrorKind::InvalidInput
    )
}
