// A program that writes lines, killed at each call, and started again until it is done.
ghost use Rattle.std.specs.Prelude.{◌≡◌, OnOk};
ghost use Rattle.tilt_store.specs.Crash.{Only};
ghost use Rattle.tilt_store.specs.MemFolder.{mem_may_leave, mem_seen};
ghost use Rattle.tilt_store.specs.Open.{IsOpen};

use std::alloc::Global;
use std::process::Abort;
use std::test::Fail;
use tilt_store::{FolderError, Ledger, MemFolder, OpenError, Tear};

// What the program writes, a line at a time. It commits after the second line, the fourth and the last, with how many lines there are.
const LINES: [&str; 5] = ["a\n", "bb\n", "ccc\n", "dddd\n", "eeeee\n"];

const ALL: &[u8] = b"a\nbb\nccc\ndddd\neeeee\n";

// What is in the output with so many lines.
const FIRST: [&[u8]; 6] = [
    b"",
    b"a\n",
    b"a\nbb\n",
    b"a\nbb\nccc\n",
    b"a\nbb\nccc\ndddd\n",
    ALL,
];

// The state of the last commit. The digest is from another program.
const LAST_STATE: &[u8] =
    b"tilt store 1 5c57d7235311d2abc16d1adf9807c4fe4fdbc37af525b2b9cba93f67370faea4\n20\n\x05";

// A run that isn't killed makes 4 calls to open, 5 to append and 12 to commit.
const CALLS: u64 = 21;

const TEARS: [Tear; 4] = [Tear::Nothing, Tear::Half, Tear::Zeros, Tear::Whole];

// What a run left, and whether it was done.
#[derive(Drop)]
struct Left {
    folder: MemFolder,
    is_done: bool,
}

// Writes the lines after the first `count`, until a call fails.
fn write_lines(
    alloc: Global,
    ledger: &mut Ledger<MemFolder>,
    count: usize,
) -> Result<(), FolderError>
    requires { IsOpen (mem_seen ledger.old.folder) (mem_may_leave ledger.old.folder) }
{
    for (place, line) in LINES.iter().enumerate() {
        write_line(alloc, ledger, count, place, line.as_bytes())?;
    }
    Ok(())
}

// Writes the line at a place unless it is among the first `count`.
fn write_line(
    alloc: Global,
    ledger: &mut Ledger<MemFolder>,
    count: usize,
    place: usize,
    line: &[u8],
) -> Result<(), FolderError>
    requires { IsOpen (mem_seen ledger.old.folder) (mem_may_leave ledger.old.folder) }
    ensures { OnOk result (IsOpen (mem_seen ledger.new.folder) (mem_may_leave ledger.new.folder)) }
{
    if place < count {
        return Ok(());
    }
    ledger.append(line)?;
    if place == 1 || place == 3 || place == 4 {
        let written = place + 1;
        ledger.commit(alloc, &[written as u8])?;
    }
    Ok(())
}

// How many lines a state counts.
fn count_in(state: &[u8]) -> usize {
    match state {
        [count] => *count as usize,
        _ => usize::MAX,
    }
}

// Opens the folder, in which there are exactly the lines that the state counts, and writes the others.
fn run<R: Abort>(alloc: Global, rt: &R, folder: MemFolder) -> Result<Left, Fail>
    requires { Only (mem_seen folder) (mem_may_leave folder) }
{
    match Ledger::open(alloc, folder, &[0]) {
        Ok(mut opened) => {
            let count = count_in(&opened.state);
            assert_eq!(rt;
                Some(opened.ledger.folder.output()),
                FIRST.get(count).copied()
            );
            let is_done = write_lines(alloc, &mut opened.ledger, count).is_ok();
            Ok(Left {
                folder: opened.ledger.folder,
                is_done,
            })
        }
        Err((error, folder)) => {
            assert_eq!(rt; error, OpenError::Failed);
            Ok(Left {
                folder,
                is_done: false,
            })
        }
    }
}

// Two runs that are killed after so many calls, and one that isn't.
fn crash_twice<R: Abort>(
    alloc: Global,
    rt: &R,
    calls: u64,
    tear: Tear,
    is_replaced: bool,
) -> Result<(), Fail> {
    let first = run(alloc, rt, MemFolder::new(alloc, b"", b"", calls)?)?;
    assert_eq!(rt; first.is_done, calls >= CALLS);
    let second = run(
        alloc,
        rt,
        first.folder.crash(alloc, tear, is_replaced, calls)?,
    )?;
    let last = run(
        alloc,
        rt,
        second.folder.crash(alloc, tear, is_replaced, u64::MAX)?,
    )?;
    assert!(rt; last.is_done);
    let left = last.folder.crash(alloc, Tear::Nothing, false, 0)?;
    assert_eq!(rt; left.output(), ALL);
    assert_eq!(rt; left.state(), LAST_STATE);
    Ok(())
}

#[test]
fn each_line_is_there_once(rt: HostRuntime) -> Result<(), Fail> {
    for calls in 0..=CALLS {
        for tear in TEARS {
            crash_twice(rt.alloc(), &rt, calls, tear, false)?;
            crash_twice(rt.alloc(), &rt, calls, tear, true)?;
        }
    }
    Ok(())
}
