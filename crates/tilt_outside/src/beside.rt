// The new file beside a name that is saved to.
use crate::digits::is_number;
use crate::uninterrupted::again;
use std::alloc::{AllocError as OutOfMemory, Global};
use std::fs;
use std::path::PathBuf;
use std::rt::Files;

/// How the names of new files end.
const ENDING: &str = ".tilt-save";

/// How many bytes of a file's name the name of the new file begins with at most, so that the whole isn't too long.
const MOST_OF_NAME: usize = 200;

/// The path of the new file: in the same folder, `.NAME.PROGRAM.tilt-save`. It holds only the first 200 bytes of NAME, so
/// don't save two files of one folder at the same time if their names begin with the same 200 bytes.
pub(crate) fn path_beside(
    alloc: Global,
    path: &PathBuf,
    name: &str,
    program: u32,
) -> Result<PathBuf, OutOfMemory> {
    let name = start_of(name);
    let beside = format!(in alloc; ".{name}.{program}{ENDING}")?;
    path.with_file_name(alloc, beside.as_str())
}

/// Deletes the new files that saves under that name have left before they were renamed, also those of programs that still
/// run: their saves then fail. A file that can't be deleted stays.
pub(crate) fn remove_left<R: Files>(alloc: Global, files: &R, folder: &str, name: &str) {
    let name = start_of(name);
    let Ok(entries) = fs::read_dir(&(files, alloc), folder) else {
        return;
    };
    for entry in entries {
        if let Ok(entry) = entry
            && is_beside(entry.file_name(), name)
        {
            let _ = again(|| files.remove_file(entry.path().as_str()));
        }
    }
}

// The first bytes of a file's name, cut before a character.
fn start_of(name: &str) -> &str {
    &name[..name.floor_char_boundary(MOST_OF_NAME)]
}

// Whether it is the name of a new file beside one whose name begins so.
fn is_beside(found: &str, name: &str) -> bool {
    let program = found
        .strip_prefix('.')
        .and_then(|rest| rest.strip_prefix(name))
        .and_then(|rest| rest.strip_prefix('.'))
        .and_then(|rest| rest.strip_suffix(ENDING));
    program.is_some_and(is_number)
}
