// Runs of listings.
use crate::runs::CASES;
use std::alloc::Global;
use std::process::Abort;
use std::test::Fail;
use tilt_code::read_code;
use tilt_machine::run_code;
use tilt_testing::{Piece, inputs_of, pieces_of};

// The run of a listing.
fn run_listing(alloc: Global, text: &str, inputs: &[&[Piece]]) -> Result<Vec<Piece>, Fail> {
    let code = read_code(alloc, text.as_bytes())?;
    let inputs = inputs_of(alloc, inputs)?;
    if inputs.len() != code.inputs().len() {
        return Err("as many row lists as inputs are wanted".into());
    }
    let list = run_code(alloc, &code, &inputs)?;
    pieces_of(alloc, &list)
}

#[test]
fn listings_run(rt: HostRuntime) -> Result<(), Fail> {
    for case in CASES {
        let list = run_listing(rt.alloc(), case.code, case.inputs)?;
        assert_eq!(rt; list.as_slice(), case.want, "at {}", case.code);
    }
    Ok(())
}

// Adds 7, and gives 1 for null.
const FILLED: &str =
    "map\nr0 = cell\nr1 = const 7\nr2 = add r0 r1\nr3 = const 1\nr4 = ifnull r2 r3\nend\n";

// Gives null for 0.
const TRUE_ONES: &str = "map\nr0 = cell\nr1 = when r0 r0\nend\n";

const NEIGHBOURS: &[Piece] = &[
    (0, 2, Some(-9)),
    (2, 3, None),
    (3, 5, Some(3)),
    (5, 7, Some(3)),
    (7, 8, Some(0)),
];

// What a reducer gives at tick 8 on a null and two equal neighbours among others: the run has that tick alone.
fn reduced(alloc: Global, maps: &str, word: &str, number: &str) -> Result<Vec<Piece>, Fail> {
    let text = format!(in alloc;
        "tilt 1\ninput x\nloop 7 8 1 0\n{maps}r0 = win {word} b0 -8 0{number}\nend\n"
    )?;
    run_listing(alloc, &text, &[NEIGHBOURS])
}

// The reducers without a map, with one that fills, and with one that drops.
const REDUCERS: &[(&str, i64, i64, i64)] = &[
    ("sum", -3, 26, -3),
    ("avg", 0, 5, -1),
    ("min", -9, -2, -9),
    ("max", 3, 10, 3),
    ("count", 4, 5, 3),
    ("first", -9, -2, -9),
    ("last", 0, 7, 3),
    ("any", 1, 1, 1),
    ("all", 0, 1, 1),
];

// The reducer gives that with these maps.
fn gives(
    alloc: Global,
    rt: &impl Abort,
    maps: &str,
    word: &str,
    number: &str,
    want: i64,
) -> Result<(), Fail> {
    let list = reduced(alloc, maps, word, number)?;
    let want = [(7, 8, Some(want))];
    assert_eq!(rt; list.as_slice(), want.as_slice(), "at {word} {maps}");
    Ok(())
}

#[test]
fn each_reducer_runs_with_and_without_a_map(rt: HostRuntime) -> Result<(), Fail> {
    for (word, plain, filled, true_ones) in REDUCERS {
        gives(rt.alloc(), &rt, "", word, "", *plain)?;
        gives(rt.alloc(), &rt, FILLED, word, " m0", *filled)?;
        gives(rt.alloc(), &rt, TRUE_ONES, word, " m0", *true_ones)?;
    }
    Ok(())
}

// Adds a loop that reads the buffer.
fn push_loop(alloc: Global, text: &mut String, buffer: u32) -> Result<(), Fail> {
    let each = format!(in alloc; "loop 0 8 1 0\nr0 = port b{buffer} 0\nend\n")?;
    text.push_str(&each)?;
    Ok(())
}

// The listing of so many loops, each of which reads the one before it.
fn chain_of(alloc: Global, count: u32) -> Result<String, Fail> {
    let mut text = String::from_str(alloc, "tilt 1\ninput x\n")?;
    for buffer in 0..count {
        push_loop(alloc, &mut text, buffer)?;
    }
    Ok(text)
}

#[test]
fn a_chain_of_a_thousand_loops_runs(rt: HostRuntime) -> Result<(), Fail> {
    let text = chain_of(rt.alloc(), 1000)?;
    let rows: &[Piece] = &[(0, 4, Some(1)), (4, 8, Some(5))];
    let list = run_listing(rt.alloc(), &text, &[rows])?;
    assert_eq!(rt; list.as_slice(), rows);
    Ok(())
}
