// Saves that fail.
use crate::call::{File, NONE, assert_end, end_over, shelf_of};
use std::alloc::Global;
use std::process::Abort;
use std::test::Fail;

const COUNT: &[u8] = b"input x; emit count(x[t-3:t]) over (0, 10];";

const FIRST: &[File<'_>] = &[("q", COUNT), ("s", b"start,end,value\n0,5,7\n")];

const LATER: &[File<'_>] = &[("s", b"start,end,value\n5,8,7\n")];

const AT_5: &[u8] =
    b"tilt checkpoint 2\nquery 2\ninput x;\nemit count(x[t-3:t]) over (0, 10];\ncut 5\nopen 2\ncut 5 last 5 rows 1\n0,5,7\nend\n";

const AT_7: &[u8] =
    b"tilt checkpoint 2\nquery 2\ninput x;\nemit count(x[t-3:t]) over (0, 10];\ncut 7\nopen 5\ncut 7 last 8 rows 2\n0,5,7\n5,8,7\nend\n";

const START: &str = "start\nq\nx=s\n--upto\n5\n--save\nc";

const RESUME: &str = "resume\nc\nx=s\n--upto\n7\n--save\nc";

const HEADED: &[u8] = b"start,end,value\n0,2,1\n";

const FAULT: &[u8] = b"tilt: 6 save fault: c\n";

// A call that saves under `c`: its arguments and files, what `c` holds, and the number of the call to the shelf that fails. Then the
// status, the output, the line, and what `c` holds then. Four reads come before the save.
struct Saving<'a> {
    words: &'a str,
    files: &'a [File<'a>],
    old: &'a [u8],
    failing: u64,
    status: u8,
    out: &'a [u8],
    line: &'a [u8],
    held: &'a [u8],
}

const SAVED: &[Saving<'_>] = &[
    Saving {
        words: RESUME,
        files: LATER,
        old: AT_5,
        failing: 5,
        status: 6,
        out: b"2,5,1\n",
        line: FAULT,
        held: AT_5,
    },
    Saving {
        words: RESUME,
        files: LATER,
        old: AT_5,
        failing: 1,
        status: 3,
        out: b"",
        line: b"tilt: 4 read fault: c\n",
        held: AT_5,
    },
    Saving {
        words: RESUME,
        files: LATER,
        old: AT_5,
        failing: 4,
        status: 3,
        out: b"",
        line: b"tilt: 4 read fault: s\n",
        held: AT_5,
    },
    Saving {
        words: START,
        files: FIRST,
        old: AT_7,
        failing: 5,
        status: 6,
        out: HEADED,
        line: FAULT,
        held: AT_7,
    },
    Saving {
        words: START,
        files: FIRST,
        old: b"",
        failing: 5,
        status: 6,
        out: HEADED,
        line: FAULT,
        held: b"",
    },
];

// Ends the test unless the call ends so.
fn assert_saving(rt: &impl Abort, alloc: Global, case: &Saving<'_>) -> Result<(), Fail> {
    let mut shelf = shelf_of(alloc, case.files, case.failing)?;
    shelf.hold("c", case.old, 1000)?;
    let end = end_over(alloc, case.words, &mut shelf, &NONE)?;
    assert_end(rt, &end, case.status, case.out, case.line, 0);
    let words = case.words;
    assert_eq!(rt; shelf.bytes("c"), Some(case.held), "at {words}");
    Ok(())
}

#[test]
fn a_save_that_fails_leaves_the_old_bytes(rt: HostRuntime) -> Result<(), Fail> {
    for case in SAVED {
        assert_saving(&rt, rt.alloc(), case)?;
    }
    Ok(())
}
