// Saves on a disk.
use crate::faulty_files::{Faults, FaultyFiles};
use crate::files_below::FilesBelow;
use std::cell::Cell;
use std::fs;
use std::io::{self, ErrorKind};
use std::os::unix::fs::{MetadataExt, PermissionsExt, symlink};
use std::process::Abort;
use std::rt::{Files, HostRuntime};
use std::test::Fail;
use tilt_outside::{DiskShelf, Failed, Shelf};

// The number of this program, for the names of new files.
const PROGRAM: u32 = 7;

// More calls than a save makes.
const CALLS: u32 = 40;

const OLD: &[u8] = b"the old bytes";

const NEW: &[u8] = b"and the new ones, which are more";

// An empty folder in which a test saves.
fn empty_folder(rt: &HostRuntime, folder: &str) -> io::Result<()> {
    let _ = fs::remove_dir_all(rt, folder);
    fs::create_dir(rt, folder)
}

// Takes an entry of a folder for one name.
fn one<E: Drop>(entry: io::Result<E>) -> io::Result<usize> {
    entry?;
    Ok(1)
}

// How many names the folder has.
fn names_in(rt: &HostRuntime, folder: &str) -> io::Result<usize> {
    let mut count = 0usize;
    for entry in fs::read_dir(rt, folder)? {
        count = count.saturating_add(one(entry)?);
    }
    Ok(count)
}

// Saves without faults.
pub fn save(rt: &HostRuntime, name: &str, bytes: &[u8]) -> Result<(), Failed> {
    DiskShelf::new(rt.alloc(), rt, PROGRAM).save(name, bytes)
}

// Saves the new bytes over the old ones, with faults of one kind from a call to another.
fn save_with(
    rt: &HostRuntime,
    name: &str,
    kind: ErrorKind,
    first: u32,
    last: u32,
) -> io::Result<Result<(), Failed>> {
    fs::write(rt, name, OLD)?;
    let calls = Cell::new(0u32);
    let faults = Faults {
        calls: &calls,
        first,
        last,
        kind,
    };
    let files = FaultyFiles { files: rt, faults };
    let mut shelf = DiskShelf::new(rt.alloc(), &files, PROGRAM);
    Ok(shelf.save(name, NEW))
}

// Saves with faults, and returns whether the save failed. The name holds the old bytes or the new ones, and the new ones if
// the save didn't fail.
fn fails_whole(
    host: &HostRuntime,
    rt: &impl Abort,
    name: &str,
    kind: ErrorKind,
    first: u32,
    last: u32,
) -> io::Result<bool> {
    let saved = save_with(host, name, kind, first, last)?;
    let held = fs::read(host, name)?;
    let is_new = held.as_slice() == NEW;
    assert!(rt; is_new || held.as_slice() == OLD, "call {first}");
    assert!(rt; is_new || saved == Err(Failed), "call {first}");
    Ok(saved.is_err())
}

#[test]
fn each_failing_call_leaves_the_old_or_the_new_bytes(rt: HostRuntime) -> Result<(), Fail> {
    empty_folder(&rt, "saves_failing")?;
    let name = "saves_failing/state";
    let mut failed = 0u32;
    for call in 1..CALLS {
        if fails_whole(&rt, &rt, name, ErrorKind::StorageFull, call, call)? {
            failed = failed.saturating_add(1);
        }
        assert_eq!(rt; names_in(&rt, "saves_failing")?, 1, "call {call}");
    }
    assert!(rt; failed > 10, "{failed}");
    // No save comes so far.
    let is_failed = fails_whole(&rt, &rt, name, ErrorKind::StorageFull, CALLS, u32::MAX)?;
    assert!(rt; !is_failed, "a save makes {CALLS} calls or more");
    fs::remove_dir_all(&rt, "saves_failing")?;
    Ok(())
}

#[test]
fn a_save_that_ends_at_any_call_leaves_the_old_or_the_new_bytes(
    rt: HostRuntime,
) -> Result<(), Fail> {
    empty_folder(&rt, "saves_ended")?;
    let name = "saves_ended/state";
    let mut left = 0u32;
    for call in 1..CALLS {
        fails_whole(&rt, &rt, name, ErrorKind::Other, call, u32::MAX)?;
        if names_in(&rt, "saves_ended")? > 1 {
            left = left.saturating_add(1);
        }
        assert_eq!(rt; save(&rt, name, OLD), Ok(()));
        assert_eq!(rt; names_in(&rt, "saves_ended")?, 1, "call {call}");
    }
    assert!(rt; left > 3, "{left}");
    fs::remove_dir_all(&rt, "saves_ended")?;
    Ok(())
}

#[test]
fn an_interrupted_call_is_begun_again(rt: HostRuntime) -> Result<(), Fail> {
    empty_folder(&rt, "saves_interrupted")?;
    let name = "saves_interrupted/state";
    for call in 1..CALLS {
        let is_failed = fails_whole(&rt, &rt, name, ErrorKind::Interrupted, call, call)?;
        assert!(rt; !is_failed, "call {call}");
        assert_eq!(rt; names_in(&rt, "saves_interrupted")?, 1, "call {call}");
    }
    let saved = save_with(&rt, name, ErrorKind::Interrupted, 1, u32::MAX)?;
    assert_eq!(rt; saved, Err(Failed));
    fs::remove_dir_all(&rt, "saves_interrupted")?;
    Ok(())
}

// The mode of a file that had this mode before a save.
fn mode_kept(rt: &HostRuntime, name: &str, mode: u32) -> Result<u32, Fail> {
    fs::set_permissions(rt, name, fs::Permissions::from_mode(mode))?;
    save(rt, name, NEW)?;
    Ok(fs::metadata(rt, name)?.mode() & 0o7777)
}

#[test]
fn the_mode_of_the_old_file_is_kept(rt: HostRuntime) -> Result<(), Fail> {
    empty_folder(&rt, "saves_modes")?;
    let name = "saves_modes/state";
    assert_eq!(rt; save(&rt, name, OLD), Ok(()));
    for mode in [0o600u32, 0o640, 0o666, 0o755] {
        assert_eq!(rt; mode_kept(&rt, name, mode)?, mode);
    }
    fs::remove_dir_all(&rt, "saves_modes")?;
    Ok(())
}

// A folder with a link that leads over a second one to a name.
fn linked_folder(rt: &HostRuntime) -> io::Result<()> {
    empty_folder(rt, "saves_links")?;
    fs::create_dir(rt, "saves_links/below")?;
    symlink(rt, "below/second", "saves_links/first")?;
    symlink(rt, "../state", "saves_links/below/second")?;
    symlink(rt, "around", "saves_links/around")
}

// What the name holds after a save by the first link.
fn held_after(rt: &HostRuntime, bytes: &[u8]) -> Result<Vec<u8>, Fail> {
    save(rt, "saves_links/first", bytes)?;
    Ok(fs::read(rt, "saves_links/state")?)
}

fn is_link(rt: &HostRuntime, name: &str) -> io::Result<bool> {
    Ok(fs::symlink_metadata(rt, name)?.is_symlink())
}

#[test]
fn what_a_link_leads_to_is_replaced(rt: HostRuntime) -> Result<(), Fail> {
    linked_folder(&rt)?;
    assert_eq!(rt; held_after(&rt, OLD)?.as_slice(), OLD);
    assert_eq!(rt; held_after(&rt, NEW)?.as_slice(), NEW);
    assert!(rt; is_link(&rt, "saves_links/first")?);
    assert!(rt; is_link(&rt, "saves_links/below/second")?);
    assert_eq!(rt; save(&rt, "saves_links/around", NEW), Err(Failed));
    fs::remove_dir_all(&rt, "saves_links")?;
    Ok(())
}

// Makes so many links, each to the one before and the first to a name.
fn chain(rt: &HostRuntime, links: u32) -> Result<(), Fail> {
    empty_folder(rt, "saves_chain")?;
    symlink(rt, "state", "saves_chain/1")?;
    for link in 1..links {
        let from = format!(in rt.alloc(); "{link}")?;
        let next = link.saturating_add(1);
        let path = format!(in rt.alloc(); "saves_chain/{next}")?;
        symlink(rt, from.as_str(), path.as_str())?;
    }
    Ok(())
}

#[test]
fn as_many_links_are_followed_as_the_system_follows(rt: HostRuntime) -> Result<(), Fail> {
    chain(&rt, 41)?;
    assert_eq!(rt; save(&rt, "saves_chain/40", NEW), Ok(()));
    assert_eq!(rt; fs::read(&rt, "saves_chain/state")?.as_slice(), NEW);
    assert_eq!(rt; fs::read(&rt, "saves_chain/40")?.as_slice(), NEW);
    assert_eq!(rt; save(&rt, "saves_chain/41", OLD), Err(Failed));
    assert!(rt; fs::read(&rt, "saves_chain/41").is_err());
    assert_eq!(rt; fs::read(&rt, "saves_chain/state")?.as_slice(), NEW);
    fs::remove_dir_all(&rt, "saves_chain")?;
    Ok(())
}

const NO_FILES: &[&str] = &[
    "saves_places",
    "saves_places/",
    "",
    ".",
    "saves_places/nowhere/state",
];

#[test]
fn what_is_no_regular_file_is_written_in_place(rt: HostRuntime) -> Result<(), Fail> {
    assert_eq!(rt; save(&rt, "/dev/null", NEW), Ok(()));
    assert!(rt; !fs::metadata(&rt, "/dev/null")?.is_file());
    empty_folder(&rt, "saves_places")?;
    for name in NO_FILES {
        assert_eq!(rt; save(&rt, name, NEW), Err(Failed), "{name}");
    }
    assert_eq!(rt; names_in(&rt, "saves_places")?, 0);
    fs::remove_dir_all(&rt, "saves_places")?;
    Ok(())
}

// What is in a file after a save over the old bytes, in a system whose root is a folder.
fn held_below(rt: &HostRuntime, folder: &str, name: &str) -> Result<Vec<u8>, Fail> {
    let place = format!(in rt.alloc(); "saves_handed{folder}")?;
    fs::create_dir_all(rt, place.as_str())?;
    let path = format!(in rt.alloc(); "saves_handed{folder}/{name}")?;
    fs::write(rt, path.as_str(), OLD)?;
    let files = FilesBelow {
        alloc: rt.alloc(),
        files: rt,
        folder: "saves_handed",
    };
    let saved = format!(in rt.alloc(); "{folder}/{name}")?;
    DiskShelf::new(rt.alloc(), &files, PROGRAM).save(saved.as_str(), NEW)?;
    Ok(fs::read(rt, path.as_str())?)
}

// Folders, and whether what is in them was handed open to a program.
const HANDED: &[(&str, bool)] = &[
    ("/dev/fd", true),
    ("/proc/self/fd", true),
    ("/proc/thread-self/fd", true),
    ("/proc/12/fd", true),
    ("/proc/12/task/13/fd", true),
    ("/proc/self/task/13/fd", true),
    ("/dev//fd", true),
    ("/dev", false),
    ("/dev/shm/fd", false),
    ("/dev/shm/dev/fd", false),
    ("/dev/fds", false),
    ("/device/fd", false),
    ("/proc/fd", false),
    ("/proc/12x/fd", false),
    ("/proc/12/fdinfo", false),
    ("/proc/12/task/fd", false),
    ("/proc/12/task/self/fd", false),
    ("/proc/self/cwd/fd", false),
    ("/proc/self/root/dev/fd", false),
    ("/proc/self/fd/14/fd", false),
    ("/proc/self/fd/14", false),
    ("/tmp/dev/fd", false),
    ("/tmp/proc/self/fd", false),
    ("/fd", false),
];

#[test]
fn only_what_was_handed_open_is_written_at_its_end(rt: HostRuntime) -> Result<(), Fail> {
    empty_folder(&rt, "saves_handed")?;
    for (folder, is_handed) in HANDED {
        let held = held_below(&rt, folder, "3")?;
        let want: &[u8] = if *is_handed {
            b"the old bytesand the new ones, which are more"
        } else {
            NEW
        };
        assert_eq!(rt; held.as_slice(), want, "{folder}");
    }
    fs::remove_dir_all(&rt, "saves_handed")?;
    Ok(())
}

// Whether a file of this name stays if another is saved.
fn stays(rt: &HostRuntime, left: &str) -> Result<bool, Fail> {
    let path = format!(in rt.alloc(); "saves_left/{left}")?;
    fs::write(rt, path.as_str(), b"x")?;
    save(rt, "saves_left/state", NEW)?;
    Ok(fs::exists(rt, path.as_str())?)
}

const LEFT: &[(&str, bool)] = &[
    (".state.12.tilt-save", false),
    (".state.4294967295.tilt-save", false),
    (".state.7.tilt-save", false),
    (".other.12.tilt-save", true),
    (".state.x.tilt-save", true),
    (".state..tilt-save", true),
    ("state.12.tilt-save", true),
    (".state.12.tilt-saved", true),
];

#[test]
fn only_what_saves_left_is_taken_away(rt: HostRuntime) -> Result<(), Fail> {
    empty_folder(&rt, "saves_left")?;
    for (left, want) in LEFT {
        assert_eq!(rt; stays(&rt, left)?, *want, "{left}");
    }
    fs::remove_dir_all(&rt, "saves_left")?;
    Ok(())
}

#[test]
fn long_names_are_saved_too(rt: HostRuntime) -> Result<(), Fail> {
    empty_folder(&rt, "saves_long")?;
    let mut name = String::from_str(rt.alloc(), "saves_long/")?;
    for _ in 0..127 {
        name.push('é')?;
    }
    assert_eq!(rt; save(&rt, name.as_str(), NEW), Ok(()));
    assert_eq!(rt; save(&rt, name.as_str(), NEW), Ok(()));
    assert_eq!(rt; names_in(&rt, "saves_long")?, 1);
    fs::remove_dir_all(&rt, "saves_long")?;
    Ok(())
}
