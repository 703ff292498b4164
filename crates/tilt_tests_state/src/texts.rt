// Texts that are states, and texts that are none.
use std::alloc::Global;
use std::process::Abort;
use std::test::Fail;
use tilt_live_state::{Progress, StateFault, decode, encode};
use tilt_watermarks::Options;

// Of the first input a row is open, and four updates are held; of the second one nothing is known yet.
const WHOLE: &str =
    "tilt live 1\nquery 3\ninput x;\ninput y;\nemit x + y over (0, 40000];\nlateness 100\nidle none\nahead 60\n\
    bytes 1234\nlines 56\nwritten 789\nfrom 1200\nshown 1250\nfinished no\ngreatest 1290\nlatest 1390\n\
    watermark 1290 open 1285 value 7 rows 2 held 4\n1200,1250,10\n1250,1285,\nrow 1290,1300,5\nvalue 1300,-7\nnull 1340\nrow 1350,1390,\n\
    watermark -3 open none value none rows 0 held 0\nend\n";

// A query without inputs, of which nothing is left.
const CONSTANT: &str =
    "tilt live 1\nquery 1\nemit 1 over (0, 5];\nlateness none\nidle none\nahead none\nbytes 0\nlines 0\nwritten 24\n\
    from 5\nshown none\nfinished yes\ngreatest none\nlatest none\nend\n";

// How far the run of the first text is.
const PROGRESS: Progress = Progress {
    options: Options {
        idle: None,
        ahead: Some(60),
        lateness: Some(100),
    },
    bytes: 1234,
    lines: 56,
    written: 789,
    from: 1200,
    shown: Some(1250),
    finished: false,
    greatest: Some(1290),
    latest: Some(1390),
};

// A part of the first text, and what makes it no state in its place.
const REPLACED: &[(&str, &str)] = &[
    // Another version, another spelling of the query, and one statement less.
    ("tilt live 1\n", "tilt live 2\n"),
    ("emit x + y", "emit x+y"),
    ("query 3\n", "query 2\n"),
    // Numbers that aren't spelled in the shortest way, or that are too large.
    ("bytes 1234\n", "bytes 01234\n"),
    ("from 1200\n", "from +1200\n"),
    ("lines 56\n", "lines 9223372036854775808\n"),
    // Words that are missing or others.
    ("finished no\n", "finished maybe\n"),
    ("idle none\n", "idle\n"),
    ("value 1300,-7\n", "values 1300,-7\n"),
    // The output goes on outside of its domain.
    ("from 1200\n", "from 40001\n"),
    // Updates are held without lateness, or before the watermark.
    ("lateness 100\n", "lateness none\n"),
    ("row 1290,1300,5\n", "row 1289,1300,5\n"),
    // Rows out of order, an open row before the last row ends, and one that starts at the watermark.
    ("1250,1285,\n", "1249,1285,\n"),
    ("open 1285 ", "open 1284 "),
    ("watermark 1290 open 1285", "watermark 1285 open 1285"),
    // An open row without a value.
    ("value 7 rows", "value none rows"),
    // Fewer rows and fewer inputs than there are, and a text that goes on or is cut off.
    ("rows 2 held 4", "rows 1 held 4"),
    ("watermark -3 open none value none rows 0 held 0\n", ""),
    ("end\n", "end\n\n"),
    ("end\n", ""),
];

fn is_read_back<R: Abort>(
    alloc: Global,
    rt: &R,
    text: &str,
    progress: Option<Progress>,
) -> Result<(), Fail> {
    match decode(alloc, text.as_bytes()) {
        Ok(decoded) => {
            if let Some(progress) = progress {
                assert_eq!(rt; decoded.state.progress, progress);
            }
            let mut again = Vec::new(alloc);
            encode(alloc, &decoded.state, &mut again)?;
            assert_eq!(rt; again.as_slice(), text.as_bytes());
        }
        Err(_fault) => assert!(rt; false),
    }
    Ok(())
}

fn is_no_state<R: Abort>(alloc: Global, rt: &R, old: &str, new: &str) -> Result<(), Fail> {
    let (front, back) = WHOLE.split_once(old).ok_or("no such part")?;
    let text = format!(in alloc; "{front}{new}{back}")?;
    match decode(alloc, text.as_bytes()) {
        Ok(_decoded) => assert!(rt; false),
        Err(fault) => assert_eq!(rt; fault, StateFault::NotAState),
    }
    Ok(())
}

#[test]
fn states_are_read_back(rt: HostRuntime) -> Result<(), Fail> {
    is_read_back(rt.alloc(), &rt, WHOLE, Some(PROGRESS))?;
    is_read_back(rt.alloc(), &rt, CONSTANT, None)
}

#[test]
fn other_texts_are_no_states(rt: HostRuntime) -> Result<(), Fail> {
    for (old, new) in REPLACED {
        is_no_state(rt.alloc(), &rt, old, new)?;
    }
    Ok(())
}
