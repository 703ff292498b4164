// Texts of checkpoints, and bytes that are none.
use std::alloc::Global;
use std::process::Abort;
use std::test::Fail;
use tilt_checkpoint::{CheckpointFault, decode, encode};

// A checkpoint whose output is decided up to tick 5 of 10, and which looks 2 ticks back: rows are kept from tick 3 on.
const AMID: &str =
    "tilt checkpoint 1\nquery 2\ninput x;\nemit count(x[t-3:t]) over (0, 10];\ncut 5\nopen 2\nlast 5 rows 1\n0,5,7\nend\n";

// A checkpoint before the output: a grid looks ahead by 4 ticks and back by 4.
const BEFORE: &str =
    "tilt checkpoint 1\nquery 2\ninput x;\nemit sum(x[t-5:t]) over (0, 10] every 5;\ncut 0\nopen none\nlast 2 rows 1\n-3,2,9\nend\n";

// What comes in place of the lines after the query of `AMID`, and is taken.
const TAKEN: &[&str] = &[
    "cut 5\nopen 2\nlast 5 rows 1\n0,5,7\nend\n",
    // The open snapshot starts at the first tick, or at the last.
    "cut 5\nopen 0\nlast 5 rows 1\n0,5,7\nend\n",
    "cut 5\nopen 4\nlast 5 rows 1\n0,5,7\nend\n",
    // A row that ends at the first tick that is kept; one past the cut; null ones; rows that touch.
    "cut 5\nopen 2\nlast 3 rows 1\n0,3,7\nend\n",
    "cut 5\nopen 2\nlast 900 rows 1\n4,900,7\nend\n",
    "cut 5\nopen 2\nlast 5 rows 2\n-9,4,\n4,5,\nend\n",
    "cut 5\nopen 2\nlast 5 rows 2\n0,4,-9223372036854775808\n4,5,9223372036854775807\nend\n",
    // No rows, and then a last end within its bounds.
    "cut 5\nopen 2\nlast none rows 0\nend\n",
    "cut 5\nopen 2\nlast 2 rows 0\nend\n",
    "cut 5\nopen 2\nlast -3999999999999999999 rows 0\nend\n",
    // A cut below, at the ends of, and above the output; the smallest and the largest cut.
    "cut -7\nopen none\nlast none rows 0\nend\n",
    "cut 0\nopen none\nlast -1 rows 1\n-2,-1,3\nend\n",
    "cut 1\nopen 0\nlast none rows 0\nend\n",
    "cut 9\nopen 8\nlast none rows 0\nend\n",
    "cut 10\nopen none\nlast none rows 0\nend\n",
    "cut 20\nopen none\nlast 19 rows 1\n18,19,3\nend\n",
    "cut -4000000000000000000\nopen none\nlast none rows 0\nend\n",
    "cut 4000000000000000000\nopen none\nlast 4000000000000000000 rows 1\n0,4000000000000000000,1\nend\n",
];

// What comes in place of these lines, and is rejected.
const REFUSED: &[&str] = &[
    "",
    // Numbers spelled otherwise, and other line ends.
    "cut +5\nopen 2\nlast 5 rows 1\n0,5,7\nend\n",
    "cut 05\nopen 2\nlast 5 rows 1\n0,5,7\nend\n",
    "cut -0\nopen none\nlast none rows 0\nend\n",
    "cut 5\nopen 2\nlast 5 rows 1\n0,05,7\nend\n",
    "cut 5\nopen 2\nlast 5 rows 01\n0,5,7\nend\n",
    "cut 5\nopen 2\nlast 5 rows 1\n0,5,null\nend\n",
    "cut 5\nopen 2\nlast 5 rows 1\n0,5,9223372036854775808\nend\n",
    "cut 5\r\nopen 2\nlast 5 rows 1\n0,5,7\nend\n",
    // A start that is missing, occurs twice, or is out of its bounds.
    "cut 5\nopen none\nlast 5 rows 1\n0,5,7\nend\n",
    "cut 5\nlast 5 rows 1\n0,5,7\nend\n",
    "cut 5\nopen 2\nopen 2\nlast 5 rows 1\n0,5,7\nend\n",
    "cut 5\nopen 5\nlast 5 rows 1\n0,5,7\nend\n",
    "cut 5\nopen -1\nlast 5 rows 1\n0,5,7\nend\n",
    "cut 0\nopen 0\nlast none rows 0\nend\n",
    "cut 10\nopen 2\nlast none rows 0\nend\n",
    // A count one too high, one too low, and one that no memory holds.
    "cut 5\nopen 2\nlast 5 rows 2\n0,5,7\nend\n",
    "cut 5\nopen 2\nlast 5 rows 0\n0,5,7\nend\n",
    "cut 5\nopen 2\nlast 5 rows -1\nend\n",
    "cut 5\nopen 2\nlast 5 rows 1000000000000\n0,5,7\nend\n",
    // Rows out of order, overlapping, empty, out of range, that end too early, or start at the cut.
    "cut 5\nopen 2\nlast 4 rows 2\n4,5,2\n0,4,1\nend\n",
    "cut 5\nopen 2\nlast 5 rows 2\n0,4,1\n3,5,2\nend\n",
    "cut 5\nopen 2\nlast 4 rows 1\n4,4,1\nend\n",
    "cut 5\nopen 2\nlast 4 rows 1\n-4000000000000000001,4,1\nend\n",
    "cut 5\nopen 2\nlast 4000000000000000001 rows 1\n0,4000000000000000001,1\nend\n",
    "cut 5\nopen 2\nlast 2 rows 1\n0,2,7\nend\n",
    "cut 5\nopen 2\nlast 6 rows 1\n5,6,7\nend\n",
    // A last end that isn't that of the last row; one without rows that is out of its bounds.
    "cut 5\nopen 2\nlast 6 rows 1\n0,5,7\nend\n",
    "cut 5\nopen 2\nlast 4 rows 1\n0,5,7\nend\n",
    "cut 5\nopen 2\nlast none rows 1\n0,5,7\nend\n",
    "cut 5\nopen 2\nlast 3 rows 0\nend\n",
    "cut 5\nopen 2\nlast -4000000000000000000 rows 0\nend\n",
    "cut -4000000000000000000\nopen none\nlast -3999999999999999999 rows 0\nend\n",
    // A cut past the limits; a series too few and too many.
    "cut 4000000000000000001\nopen none\nlast none rows 0\nend\n",
    "cut -4000000000000000001\nopen none\nlast none rows 0\nend\n",
    "cut 5\nopen 2\nend\n",
    "cut 5\nopen 2\nlast none rows 0\nlast none rows 0\nend\n",
];

// Some of these, which are refused for the same reason in the second version.
const REFUSED_IN_SECOND: &[&str] = &[
    "cut +5\nopen 2\nlast 5 rows 1\n0,5,7\nend\n",
    "cut 5\nopen none\nlast 5 rows 1\n0,5,7\nend\n",
    "cut 5\nopen 2\nlast 5 rows 2\n0,5,7\nend\n",
    "cut 5\nopen 2\nlast 6 rows 1\n5,6,7\nend\n",
    "cut 5\nopen 2\nlast 2 rows 1\n0,2,7\nend\n",
    "cut 5\nopen 2\nlast 3 rows 0\nend\n",
    "cut 4000000000000000001\nopen none\nlast none rows 0\nend\n",
    "cut -4000000000000000000\nopen none\nlast -3999999999999999999 rows 0\nend\n",
];

// Whole texts that are taken: other queries.
const OTHER_TAKEN: &[&str] = &[
    BEFORE,
    // No inputs.
    "tilt checkpoint 1\nquery 1\nemit 1 over (0, 5];\ncut 3\nopen 0\nend\n",
    // Two inputs, of which the query looks back 9 ticks and ahead 9.
    "tilt checkpoint 1\nquery 4\ninput temp;\ninput limit;\nlet avg10 = avg(temp[t-10:t]) every 10;\n\
     emit avg10 - limit when avg10 > limit over (0, 30];\ncut 20\nopen 10\nlast none rows 0\nlast 25 rows 2\n\
     1,2,5\n19,25,4\nend\n",
    // A grid with an offset.
    "tilt checkpoint 1\nquery 1\nemit 1 over (2, 12] every 5 from 2;\ncut 8\nopen 2\nend\n",
];

// Whole texts that are refused: another version, and queries that are spelled otherwise, counted wrong, faulty, or look too far.
const OTHER_REFUSED: &[&str] = &[
    "tilt checkpoint 3\nquery 2\ninput x;\nemit count(x[t-3:t]) over (0, 10];\ncut 5\nopen 2\nlast 5 rows 1\n0,5,7\nend\n",
    "tilt checkpoint 1\nquery 2\ninput x;\nemit count(x[t-3:t]) over (0, 10 ];\ncut 5\nopen 2\nlast 5 rows 1\n0,5,7\nend\n",
    "tilt checkpoint 1\nquery 1\nemit 1 over (0, 5];\r\ncut 3\nopen 0\nend\n",
    "tilt checkpoint 1\nquery 1\nemit (1) over (0, 5];\ncut 3\nopen 0\nend\n",
    "tilt checkpoint 1\nquery 1\nemit 1 over (0, 10] every 5 from 0;\ncut 8\nopen 0\nend\n",
    "tilt checkpoint 1\nquery 2\nemit 1 over (0, 5];\ncut 3\nopen 0\nend\n",
    "tilt checkpoint 1\nquery 0\nemit 1 over (0, 5];\ncut 3\nopen 0\nend\n",
    "tilt checkpoint 1\nquery 1\ninput x;\nemit 1 over (0, 5];\ncut 3\nopen 0\nlast none rows 0\nend\n",
    "tilt checkpoint 1\nquery 1\nemit x over (0, 5];\ncut 3\nopen 0\nend\n",
    "tilt checkpoint 1\nquery 1\nemit true over (0, 5];\ncut 3\nopen 0\nend\n",
    "tilt checkpoint 1\nquery 1\nemit 1 over (0, 5;\ncut 3\nopen 0\nend\n",
    "tilt checkpoint 1\nquery 1\nemit @ over (0, 5];\ncut 3\nopen 0\nend\n",
    "tilt checkpoint 1\nquery 2\ninput x;\nemit x[t-1000000000001] over (0, 5];\ncut 3\nopen 0\nlast none rows 0\nend\n",
];

// A query of two inputs, which looks no farther than its own tick, in the second version.
const TWO: &str = "tilt checkpoint 2\nquery 3\ninput x;\ninput y;\nemit x + y over (0, 10];\n";

// What comes after it, and is taken. Rows are kept from the smallest cut on.
const TWO_TAKEN: &[&str] = &[
    // A row of x starts at the least cut or after it, but below its own.
    "cut 5\nopen 4\ncut 8 last 9 rows 2\n0,6,1\n6,9,2\ncut 5 last 12 rows 1\n4,12,20\nend\n",
    // The second input is the one ahead, and the same cut for both.
    "cut 5\nopen 4\ncut 5 last 6 rows 1\n0,6,1\ncut 7 last 12 rows 1\n6,12,20\nend\n",
    "cut 5\nopen 4\ncut 5 last 6 rows 1\n0,6,1\ncut 5 last none rows 0\nend\n",
    // One input that ends long before the other: nothing is decided, and all rows of the other are kept that end at the first tick or
    // later.
    "cut -9\nopen none\ncut -9 last none rows 0\ncut 20 last 20 rows 2\n0,1,3\n1,20,4\nend\n",
    // Cuts at both ends of time.
    "cut -4000000000000000000\nopen none\ncut -4000000000000000000 last none rows 0\n\
     cut 4000000000000000000 last 4000000000000000000 rows 1\n0,4000000000000000000,1\nend\n",
    // The last end of a row that needn't be kept.
    "cut 5\nopen 4\ncut 5 last 4 rows 0\ncut 9 last none rows 0\nend\n",
];

// What comes after it, and is rejected.
const TWO_REFUSED: &[&str] = &[
    // The first cut isn't the smallest: too high, too low, the largest.
    "cut 6\nopen 4\ncut 8 last none rows 0\ncut 5 last none rows 0\nend\n",
    "cut 4\nopen 3\ncut 8 last none rows 0\ncut 5 last none rows 0\nend\n",
    "cut 8\nopen 4\ncut 8 last none rows 0\ncut 5 last none rows 0\nend\n",
    // A row that starts at its own cut, though below the other's; one that ends before the first tick that is kept.
    "cut 5\nopen 4\ncut 8 last 9 rows 1\n8,9,2\ncut 5 last none rows 0\nend\n",
    "cut 5\nopen 4\ncut 8 last none rows 0\ncut 5 last 7 rows 1\n5,7,2\nend\n",
    "cut 5\nopen 4\ncut 8 last 4 rows 1\n0,4,2\ncut 5 last none rows 0\nend\n",
    // The cut of an input that is missing, spelled otherwise, or out of the range of times.
    "cut 5\nopen 4\nlast none rows 0\nlast none rows 0\nend\n",
    "cut 5\nopen 4\ncut 5 last none rows 0\nlast none rows 0\nend\n",
    "cut 5\nopen 4\ncut +8 last none rows 0\ncut 5 last none rows 0\nend\n",
    "cut 5\nopen 4\ncut 08 last none rows 0\ncut 5 last none rows 0\nend\n",
    "cut 5\nopen 4\ncut 8  last none rows 0\ncut 5 last none rows 0\nend\n",
    "cut 5\nopen 4\ncut 8\nlast none rows 0\ncut 5 last none rows 0\nend\n",
    "cut 5\nopen 4\ncut none last none rows 0\ncut 5 last none rows 0\nend\n",
    "cut 5\nopen 4\ncut 4000000000000000001 last none rows 0\ncut 5 last none rows 0\nend\n",
    // A series too few and too many.
    "cut 5\nopen 4\ncut 5 last none rows 0\nend\n",
    "cut 5\nopen 4\ncut 8 last none rows 0\ncut 5 last none rows 0\ncut 5 last none rows 0\nend\n",
];

// The same query in the first version, with lines of the second: the first version has no cuts of inputs, not even equal ones.
const MIXED: &[&str] = &[
    "tilt checkpoint 1\nquery 3\ninput x;\ninput y;\nemit x + y over (0, 10];\n\
     cut 5\nopen 4\ncut 5 last none rows 0\ncut 5 last none rows 0\nend\n",
    "tilt checkpoint 1\nquery 3\ninput x;\ninput y;\nemit x + y over (0, 10];\n\
     cut 5\nopen 4\ncut 8 last none rows 0\ncut 5 last none rows 0\nend\n",
    "tilt checkpoint 0\nquery 1\nemit 1 over (0, 5];\ncut 3\nopen 0\nend\n",
    "tilt checkpoint 02\nquery 1\nemit 1 over (0, 5];\ncut 3\nopen 0\nend\n",
    "tilt checkpoint 12\nquery 1\nemit 1 over (0, 5];\ncut 3\nopen 0\nend\n",
];

// A text of the first version in the second: each input has the cut of all.
fn in_second_version(alloc: Global, text: &str) -> Result<String, Fail> {
    let (_, rest) = text.split_once('\n').ok_or("no line")?;
    let (begin, moment) = rest.split_once("cut ").ok_or("no cut")?;
    let (cut, lines) = moment.split_once('\n').ok_or("no line of the cut")?;
    let mut second = format!(in alloc; "tilt checkpoint 2\n{begin}cut {cut}\n")?;
    for line in lines.lines() {
        let line = if line.starts_with("last ") {
            format!(in alloc; "cut {cut} {line}\n")?
        } else {
            format!(in alloc; "{line}\n")?
        };
        second.push_str(line.as_str())?;
    }
    Ok(second)
}

// The text of `AMID` up to its query, and these lines.
fn with_lines(alloc: Global, lines: &str) -> Result<String, Fail> {
    let (begin, _) = AMID.split_once("cut").ok_or("no cut")?;
    Ok(format!(in alloc; "{begin}{lines}")?)
}

// The text gives a checkpoint that is written so.
fn take(alloc: Global, rt: &impl Abort, text: &str, written: &str) -> Result<(), Fail> {
    match decode(alloc, text.as_bytes()) {
        Ok(decoded) => {
            let again = encode(alloc, &decoded.checkpoint)?;
            assert_eq!(rt; again.as_slice(), written.as_bytes(), "at {text}");
        }
        Err(fault) => assert!(rt; false, "{fault:?} at {text}"),
    }
    Ok(())
}

// A text of the first version is taken, and so is the text of the second that is written of it.
fn take_both(alloc: Global, rt: &impl Abort, text: &str) -> Result<(), Fail> {
    let second = in_second_version(alloc, text)?;
    take(alloc, rt, text, second.as_str())?;
    take(alloc, rt, second.as_str(), second.as_str())
}

// The bytes are refused.
fn refuse(alloc: Global, rt: &impl Abort, bytes: &[u8]) {
    match decode(alloc, bytes) {
        Ok(_) => assert!(rt; false, "taken: {bytes:?}"),
        Err(fault) => assert_eq!(rt; fault, CheckpointFault::BadCheckpoint, "at {bytes:?}"),
    }
}

#[test]
fn spellings_are_taken_and_written_again(rt: HostRuntime) -> Result<(), Fail> {
    let alloc = rt.alloc();
    for lines in TAKEN {
        let text = with_lines(alloc, lines)?;
        take_both(alloc, &rt, text.as_str())?;
    }
    for text in OTHER_TAKEN {
        take_both(alloc, &rt, text)?;
    }
    Ok(())
}

#[test]
fn each_input_has_a_cut_of_its_own(rt: HostRuntime) -> Result<(), Fail> {
    let alloc = rt.alloc();
    for lines in TWO_TAKEN {
        let text = format!(in alloc; "{TWO}{lines}")?;
        take(alloc, &rt, text.as_str(), text.as_str())?;
    }
    for lines in TWO_REFUSED {
        let text = format!(in alloc; "{TWO}{lines}")?;
        refuse(alloc, &rt, text.as_bytes());
    }
    for text in MIXED {
        refuse(alloc, &rt, text.as_bytes());
    }
    Ok(())
}

#[test]
fn other_bytes_are_refused(rt: HostRuntime) -> Result<(), Fail> {
    let alloc = rt.alloc();
    for lines in REFUSED {
        let text = with_lines(alloc, lines)?;
        refuse(alloc, &rt, text.as_bytes());
    }
    for lines in REFUSED_IN_SECOND {
        let text = in_second_version(alloc, with_lines(alloc, lines)?.as_str())?;
        refuse(alloc, &rt, text.as_bytes());
    }
    for text in OTHER_REFUSED {
        refuse(alloc, &rt, text.as_bytes());
    }
    Ok(())
}

#[test]
fn every_prefix_is_refused(rt: HostRuntime) -> Result<(), Fail> {
    let alloc = rt.alloc();
    let two = TWO_TAKEN[0];
    let second = format!(in alloc; "{TWO}{two}")?;
    for text in [AMID, BEFORE, second.as_str()] {
        let bytes = text.as_bytes();
        for length in 0..bytes.len() {
            refuse(alloc, &rt, &bytes[..length]);
        }
        let more = format!(in alloc; "{text}\n")?;
        refuse(alloc, &rt, more.as_bytes());
    }
    Ok(())
}
