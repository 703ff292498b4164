// Where the links of a name lead.
use crate::digits::is_number;
use crate::uninterrupted::again;
use std::alloc::Global;
use std::fs::Metadata;
use std::io::{self, ErrorKind};
use std::path::{Path, PathBuf};
use std::rt::Files;

/// How many links a name may lead through, as on Linux.
const MOST_LINKS: u32 = 40;

/// The path that the name leads to: it is no link, unless it is a file that the program was handed open.
pub(crate) fn followed<R: Files>(alloc: Global, files: &R, name: &str) -> io::Result<PathBuf> {
    let mut path = PathBuf::from_str(alloc, name)?;
    for _ in 0..=MOST_LINKS {
        if is_descriptor(&path) || !is_link(files, path.as_str())? {
            return Ok(path);
        }
        path = next_path(alloc, files, &path)?;
    }
    Err(io::Error::from(ErrorKind::FilesystemLoop))
}

/// Whether the path names a file that the program was handed open, as `/dev/stdout` leads to: one of `/dev/fd`, or of
/// `/proc/PROCESS/fd` or `/proc/PROCESS/task/THREAD/fd`. Any other folder may be named `fd` too, such as `/dev/shm/fd`.
pub(crate) fn is_descriptor(path: &PathBuf) -> bool {
    let Some(folder) = path.parent() else {
        return false;
    };
    folder == Path::new("/dev/fd") || folder.strip_prefix("/proc").is_ok_and(is_of_process)
}

// Whether that folder below `/proc` has the open files of a process or of one of its threads.
fn is_of_process(folder: Path<'_>) -> bool {
    let mut names = folder.components().map(|name| name.as_os_str());
    let process = names.next();
    let below = (names.next(), names.next(), names.next(), names.next());
    process.is_some_and(is_process)
        && match below {
            (Some("fd"), None, ..) => true,
            (Some("task"), Some(thread), Some("fd"), None) => is_number(thread),
            _ => false,
        }
}

fn is_process(name: &str) -> bool {
    name == "self" || name == "thread-self" || is_number(name)
}

/// What the system says of the path, with its links followed, and `None` if nothing is there.
pub(crate) fn find<R: Files>(files: &R, path: &str) -> io::Result<Option<Metadata>> {
    found(again(|| files.metadata(path)))
}

fn found(answer: io::Result<Metadata>) -> io::Result<Option<Metadata>> {
    match answer {
        Ok(metadata) => Ok(Some(metadata)),
        Err(error) if error.kind() == ErrorKind::NotFound => Ok(None),
        Err(error) => Err(error),
    }
}

fn is_link<R: Files>(files: &R, path: &str) -> io::Result<bool> {
    let metadata = found(again(|| files.symlink_metadata(path)))?;
    Ok(metadata.is_some_and(|metadata| metadata.is_symlink()))
}

// What the link says begins at the link's folder.
fn next_path<R: Files>(alloc: Global, files: &R, link: &PathBuf) -> io::Result<PathBuf> {
    let text = again(|| files.read_link(alloc, link.as_str()))?;
    match link.parent() {
        Some(folder) => Ok(folder.join(alloc, text.as_str())?),
        None => Ok(text),
    }
}
