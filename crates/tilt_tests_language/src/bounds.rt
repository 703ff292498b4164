// How far queries look, and the stretches of their definitions.
use crate::table::{Shown, assert_shown, assert_text};
use std::alloc::Global;
use std::test::Fail;
use tilt_bounds::{Margins, Need, reach, stretch};
use tilt_testing::core_of;

// The look-back and the look-ahead, and then the need of each source.
fn show(alloc: Global, margins: &Margins) -> Result<String, Fail> {
    let mut shown = format!(in alloc; "{} {}:", margins.back(), margins.ahead())?;
    for need in margins.needs() {
        let one = match need {
            Need::Unused => format!(in alloc; " unused")?,
            Need::Used { back, ahead } => format!(in alloc; " {back},{ahead}")?,
        };
        shown.push_str(one.as_str())?;
    }
    Ok(shown)
}

// How far the query of a text looks, or its fault.
struct Looks;

impl Shown for Looks {
    fn shown(&self, alloc: Global, text: &str) -> Result<String, Fail> {
        let core = core_of(alloc, text)?;
        match reach(alloc, &core) {
            Ok(margins) => show(alloc, &margins),
            Err(fault) => Ok(format!(in alloc; "{fault:?}")?),
        }
    }
}

const QUERIES: &[(&str, &str)] = &[
    // A shift in a window, a window on a grid, and two sensors.
    (
        "input x; let y = x[t-2]; emit sum(y[t-3:t]) over (0, 5];",
        "4 0: 4,0 2,0 0,0",
    ),
    (
        "input x; emit sum(x[t-5:t]) over (0, 10] every 5;",
        "4 4: 4,4 0,0",
    ),
    (
        "input temp; input limit; let avg10 = avg(temp[t-10:t]) every 10;
        emit avg10 - limit when avg10 > limit over (0, 30];",
        "9 9: 9,9 0,0 0,0 0,0",
    ),
    // Each form of expression.
    ("emit 1 over (0, 5];", "0 0: 0,0"),
    ("input x; emit x[t+3] over (0, 5];", "0 3: 0,3 0,0"),
    ("input x; emit -x[t-3] over (0, 5];", "3 0: 3,0 0,0"),
    ("input x; emit x[t-1] + x[t+2] over (0, 5];", "1 2: 1,2 0,0"),
    (
        "input x; emit if x[t-1] > 0 then x[t-2] else x[t+3] over (0, 5];",
        "2 3: 2,3 0,0",
    ),
    (
        "input x; input y; emit ifnull(x[t-1], y[t+2]) over (0, 5];",
        "1 2: 1,0 0,2 0,0",
    ),
    (
        "input x; emit count(x[t+1:t+4]) over (0, 5];",
        "0 4: 0,4 0,0",
    ),
    (
        "input x; emit count(x[t-4:t-2]) over (0, 5];",
        "3 0: 3,0 0,0",
    ),
    // A body that looks ahead for its grid alone, and a source that only such a body reads.
    ("emit 1 over (0, 10] every 10;", "0 9: 0,0"),
    (
        "input x; let y = x every 10; emit y[t-1] over (0, 5];",
        "1 9: 1,9 1,0 0,0",
    ),
    // A grid looks as far ahead from any offset.
    (
        "input x; emit sum(x[t-5:t]) over (2, 12] every 5 from 2;",
        "4 4: 4,4 0,0",
    ),
    (
        "input x; let a = x every 4 from 1; emit a over (-1, 7] every 4 from 3;",
        "0 6: 0,6 0,3 0,0",
    ),
    // The widest of two users, and what no user reaches.
    (
        "input x; let y = x; let z = y[t-7] + y[t+1]; emit y[t-3] + z[t-1] over (0, 5];",
        "8 1: 8,1 8,1 1,0 0,0",
    ),
    (
        "input x; input y; let z = y[t-5]; let w = z[t-2]; emit x over (0, 5];",
        "0 0: 0,0 unused unused unused 0,0",
    ),
    // A definition that is used only outside of its user's span.
    (
        "input x; let y = x; let z = y[t-3] over (100, 200]; emit ifnull(z, 0) over (0, 6];",
        "3 0: 3,0 3,0 0,0 0,0",
    ),
    // The limit, and above it; offsets that 64 bits don't hold when they are added up.
    (
        "input x; emit x[t-1000000000000] + x[t+1000000000000] over (0, 5];",
        "1000000000000 1000000000000: 1000000000000,1000000000000 0,0",
    ),
    (
        "input x; emit x[t-1000000000001] over (0, 5];",
        "TooFar { back: 1000000000001, ahead: 0 }",
    ),
    (
        "input x; emit x[t+1000000000001] over (0, 5];",
        "TooFar { back: 0, ahead: 1000000000001 }",
    ),
    (
        "input x; let a = x[t-9223372036854775807]; let b = a[t-9223372036854775807];
        let c = b[t-9223372036854775807]; emit c[t+1] over (0, 5];",
        "TooFar { back: 27670116110564327421, ahead: 1 }",
    ),
    (
        "input x; let a = x[t-9223372036854775807]; let b = a[t-9223372036854775807];
        let c = b[t-9223372036854775807]; emit x over (0, 5];",
        "0 0: 0,0 unused unused unused 0,0",
    ),
    (
        "input x; emit sum(x[t-9223372036854775807:t+9223372036854775807]) over (0, 5];",
        "TooFar { back: 9223372036854775806, ahead: 9223372036854775807 }",
    ),
];

#[test]
fn needs_are_those_worked_out(rt: HostRuntime) -> Result<(), Fail> {
    assert_shown(&rt, rt.alloc(), QUERIES, &Looks)
}

// A query of 253 definitions that each read the one before twice.
fn doubled(alloc: Global) -> Result<String, Fail> {
    let mut text = String::from_str(alloc, "input x; let y0 = x;")?;
    for i in 0..253_u64 {
        let one = format!(in alloc; "let y{} = y{i} + y{i}[t-1];", i + 1)?;
        text.push_str(one.as_str())?;
    }
    text.push_str("emit y253 over (0, 5];")?;
    Ok(text)
}

#[test]
fn many_definitions_take_no_time(rt: HostRuntime) -> Result<(), Fail> {
    let alloc = rt.alloc();
    let text = doubled(alloc)?;
    let core = core_of(alloc, text.as_str())?;
    let margins = reach(alloc, &core)?;
    assert_eq!(rt; (margins.back(), margins.ahead()), (253, 0));
    Ok(())
}

const SPANS: &[(&str, u32, &str)] = &[
    (
        "input x; let y = x[t-2]; emit sum(y[t-3:t]) over (0, 5];",
        0,
        "(-2, 5] false",
    ),
    (
        "input x; let y = x[t-2]; emit sum(y[t-3:t]) over (0, 5];",
        1,
        "(0, 5] false",
    ),
    (
        "input x; let y = x over (2, 4]; emit ifnull(y, 0) over (0, 6];",
        0,
        "(2, 4] false",
    ),
    (
        "input x; let y = x over (100, 200]; emit ifnull(y, 0) over (0, 6];",
        0,
        "(0, 5] true",
    ),
    (
        "input x; let y = x over (-1, 200]; emit y[t-3] + y[t+4] over (0, 6];",
        0,
        "(-1, 9] false",
    ),
    (
        "input x; let y = x over (5, 9]; emit y over (0, 5];",
        0,
        "(0, 5] true",
    ),
];

// The stretch of the loop of a definition, for the output on `(0, 5]`.
fn span_of(alloc: Global, text: &str, def: u32) -> Result<String, Fail> {
    let core = core_of(alloc, text)?;
    let margins = reach(alloc, &core)?;
    let place = core.inputs().len() + def as usize;
    if def as usize >= core.defs().len() || place >= margins.needs().len() {
        return Err("no such definition".into());
    }
    if let Need::Unused = margins.needs()[place] {
        return Err("it isn't used".into());
    }
    let span = stretch(&core, &margins, def, 0, 5);
    Ok(format!(in alloc; "({}, {}] {}", span.lo, span.hi, span.empty)?)
}

#[test]
fn stretches_are_those_worked_out(rt: HostRuntime) -> Result<(), Fail> {
    for (text, def, want) in SPANS {
        let shown = span_of(rt.alloc(), text, *def)?;
        assert_text(&rt, shown.as_str(), want, text);
    }
    Ok(())
}
