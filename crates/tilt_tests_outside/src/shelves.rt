// Shelves in memory and on a disk, and whole files that are read from them.
use crate::faulty_files::{Faults, FaultyFiles};
use crate::saves::save;
use std::alloc::Global;
use std::cell::Cell;
use std::fs;
use std::io::ErrorKind;
use std::test::Fail;
use tilt_outside::{DiskShelf, Failed, MemShelf, ReadAllFault, Shelf, read_all};

// So many bytes.
fn bytes_of(alloc: Global, length: u32) -> Result<Vec<u8>, Fail> {
    let mut bytes = Vec::new(alloc);
    for i in 0..length {
        bytes.push((i % 251) as u8)?;
    }
    Ok(bytes)
}

// What is read of a file of these bytes up to a limit, and how many bytes were given.
fn read_up_to(
    alloc: Global,
    bytes: &[u8],
    limit: u32,
) -> Result<(Result<Vec<u8>, ReadAllFault>, u64), Fail> {
    let mut shelf = MemShelf::new(alloc);
    shelf.hold("a", bytes, 0)?;
    let read = read_all(alloc, &mut shelf, "a", u64::from(limit));
    Ok((read, shelf.given()))
}

// How many bytes there are, the limit, whether they are read, and how many are given.
const LIMITS: &[(u32, u32, bool, u64)] = &[
    (4, 4, true, 4),
    (5, 4, false, 5),
    (0, 4, true, 0),
    (0, 0, true, 0),
    (1, 0, false, 1),
    (65546, 65546, true, 65546),
    (65546, 65545, false, 65546),
];

#[test]
fn files_up_to_the_limit_are_read_whole(rt: HostRuntime) -> Result<(), Fail> {
    for (length, limit, is_read, most) in LIMITS {
        let bytes = bytes_of(rt.alloc(), *length)?;
        let (read, given) = read_up_to(rt.alloc(), bytes.as_slice(), *limit)?;
        let want = if *is_read {
            Ok(bytes)
        } else {
            Err(ReadAllFault::TooLong)
        };
        assert_eq!(rt; read, want, "{length} bytes, limit {limit}");
        assert_eq!(rt; given, *most);
    }
    Ok(())
}

// Whole files, with faults at two calls.
fn read_failing(
    alloc: Global,
    name: &str,
    call: u64,
    next: u64,
) -> Result<(Option<ReadAllFault>, [Result<usize, Failed>; 2]), Fail> {
    let mut shelf = MemShelf::new(alloc);
    shelf.hold("a", b"four", 0)?;
    shelf.fail_at(call)?;
    shelf.fail_at(next)?;
    let read = read_all(alloc, &mut shelf, name, 4);
    let mut room = [0u8; 4];
    let after = [
        shelf.read_at("a", 0, &mut room),
        shelf.read_at("a", 0, &mut room),
    ];
    Ok((read.err(), after))
}

const FAILING: &[(&str, u64, u64)] = &[("a", 1, 2), ("a", 2, 3), ("b", 9, 2)];

#[test]
fn each_failing_read_is_told_and_is_the_last(rt: HostRuntime) -> Result<(), Fail> {
    for (name, call, next) in FAILING {
        let (read, after) = read_failing(rt.alloc(), name, *call, *next)?;
        let want = Some(ReadAllFault::ReadFault);
        assert_eq!(rt; read, want, "{name}, call {call}");
        assert_eq!(rt; after, [Err(Failed), Ok(4)], "{name}, call {call}");
    }
    Ok(())
}

// What a read returns after a file was read whole with that many reads: the read after those fails.
fn read_after(
    alloc: Global,
    bytes: &[u8],
    limit: u32,
    reads: u64,
) -> Result<Result<usize, Failed>, Fail> {
    let mut shelf = MemShelf::new(alloc);
    shelf.hold("a", bytes, 0)?;
    shelf.fail_at(reads.saturating_add(1))?;
    let _ = read_all(alloc, &mut shelf, "a", u64::from(limit));
    let mut room = [0u8; 4];
    Ok(shelf.read_at("a", 0, &mut room))
}

// How many reads there are: one more if the limit doesn't show the end.
const READS: &[(&[u8], u32, u64)] = &[
    (b"four", 9, 2),
    (b"four", 4, 2),
    (b"four", 3, 1),
    (b"", 9, 1),
    (b"", 0, 1),
];

#[test]
fn a_file_is_read_to_its_end_and_no_further(rt: HostRuntime) -> Result<(), Fail> {
    for (bytes, limit, reads) in READS {
        let next = read_after(rt.alloc(), bytes, *limit, *reads)?;
        assert_eq!(rt; next, Err(Failed), "{bytes:?}, limit {limit}");
    }
    Ok(())
}

// A shelf of two files, of which one was held again.
fn two_files(alloc: Global, call: u64) -> Result<MemShelf, Fail> {
    let mut shelf = MemShelf::new(alloc);
    shelf.hold("b", b"x", 0)?;
    shelf.hold("a", b"four", 8)?;
    shelf.hold("b", b"other", 2)?;
    shelf.fail_at(call)?;
    Ok(shelf)
}

// The name, the bytes, the call that fails, what is held then, and whether the save fails.
const SAVES: &[(&str, &[u8], u64, Option<&[u8]>, bool)] = &[
    ("a", b"", 9, Some(b""), false),
    ("a", b"eight...", 9, Some(b"eight..."), false),
    ("a", b"nine.....", 9, Some(b"four"), true),
    ("a", b"five.", 1, Some(b"four"), true),
    ("b", b"fives", 9, Some(b"fives"), false),
    ("b", b"longer", 9, Some(b"other"), true),
    ("c", b"", 9, None, true),
];

#[test]
fn saves_within_and_past_the_room(rt: HostRuntime) -> Result<(), Fail> {
    for (name, bytes, call, held, fails) in SAVES {
        let mut shelf = two_files(rt.alloc(), *call)?;
        let is_failed = shelf.save(name, bytes).is_err();
        assert_eq!(rt; is_failed, *fails, "{name} {bytes:?}");
        assert_eq!(rt; shelf.bytes(name), *held, "{name} {bytes:?}");
    }
    Ok(())
}

// The number of this program, for the names of new files.
const PROGRAM: u32 = 7;

const NAME: &str = "tilt_outside_saved";

const OTHER: &str = "tilt_outside_other";

// What is read of the bytes once the shelf has saved them.
fn saved_and_read(
    alloc: Global,
    shelf: &mut DiskShelf<'_, HostRuntime>,
    bytes: &[u8],
) -> Result<Vec<u8>, Fail> {
    shelf.save(NAME, bytes)?;
    Ok(read_all(alloc, shelf, NAME, 20)?)
}

const CONTENTS: &[&[u8]] = &[b"first bytes", b"", b"second"];

#[test]
fn what_is_saved_is_read_again(rt: HostRuntime) -> Result<(), Fail> {
    let mut shelf = DiskShelf::new(rt.alloc(), &rt, PROGRAM);
    for bytes in CONTENTS {
        let read = saved_and_read(rt.alloc(), &mut shelf, bytes)?;
        assert_eq!(rt; read.as_slice(), *bytes);
    }
    let mut room = [0u8; 3];
    assert_eq!(rt; shelf.read_at(NAME, 2, &mut room), Ok(3));
    assert_eq!(rt; room, *b"con");
    fs::remove_file(&rt, NAME)?;
    let missing = read_all(rt.alloc(), &mut shelf, NAME, 20);
    assert_eq!(rt; missing.err(), Some(ReadAllFault::ReadFault));
    assert_eq!(rt; shelf.save("", b""), Err(Failed));
    Ok(())
}

// Names, places and what is read there.
const READ_ON: &[(&str, u64, [u8; 2])] = &[
    (NAME, 0, *b"fi"),
    (OTHER, 2, *b"he"),
    (OTHER, 0, *b"ot"),
    (OTHER, 2, *b"he"),
];

#[test]
fn reading_on_in_another_file_gives_its_bytes(rt: HostRuntime) -> Result<(), Fail> {
    let mut shelf = DiskShelf::new(rt.alloc(), &rt, PROGRAM);
    assert_eq!(rt; shelf.save(NAME, b"first"), Ok(()));
    assert_eq!(rt; shelf.save(OTHER, b"other"), Ok(()));
    let mut room = [0u8; 2];
    for (name, at, want) in READ_ON {
        assert_eq!(rt; shelf.read_at(name, *at, &mut room), Ok(2));
        assert_eq!(rt; room, *want);
    }
    fs::remove_file(&rt, NAME)?;
    fs::remove_file(&rt, OTHER)?;
    Ok(())
}

// What a read of two bytes returns with faults of one kind from a call to another, the room after it, and how many calls there were.
fn read_with(
    rt: &HostRuntime,
    kind: ErrorKind,
    first: u32,
    last: u32,
) -> (Result<usize, Failed>, [u8; 2], u32) {
    let calls = Cell::new(0u32);
    let faults = Faults {
        calls: &calls,
        first,
        last,
        kind,
    };
    let files = FaultyFiles { files: rt, faults };
    let mut shelf = DiskShelf::new(rt.alloc(), &files, PROGRAM);
    let mut room = [0u8; 2];
    let read = shelf.read_at(OTHER, 0, &mut room);
    (read, room, calls.get())
}

#[test]
fn an_error_that_stays_is_told_at_once(rt: HostRuntime) -> Result<(), Fail> {
    assert_eq!(rt; save(&rt, OTHER, b"other"), Ok(()));
    for first in 1..3u32 {
        let (read, _, calls) = read_with(&rt, ErrorKind::Other, first, u32::MAX);
        assert_eq!(rt; read, Err(Failed));
        assert_eq!(rt; calls, first);
    }
    fs::remove_file(&rt, OTHER)?;
    Ok(())
}

#[test]
fn an_interrupted_read_is_begun_again(rt: HostRuntime) -> Result<(), Fail> {
    fs::write(&rt, OTHER, b"xyz")?;
    // The first call opens the file.
    for last in 1..4u32 {
        let answer = read_with(&rt, ErrorKind::Interrupted, 2, last);
        assert_eq!(rt; answer, (Ok(1), *b"x\0", last.saturating_add(1)));
    }
    fs::remove_file(&rt, OTHER)?;
    Ok(())
}
