// Queries, and their cores or their faults.
use crate::table::{Shown, assert_shown};
use std::alloc::Global;
use std::test::Fail;
use tilt_base::Span;
use tilt_core::Core;
use tilt_testing::{name_text, query_of};
use tilt_types::check;

// The names of the inputs, and then each definition: its expression, its span where it has one, its period where that isn't 1, and
// its offset where that isn't 0.
fn show(alloc: Global, core: &Core) -> Result<String, Fail> {
    let mut shown = String::new(alloc);
    for name in core.inputs() {
        shown.push_str(name_text(name)?)?;
        shown.push_str("; ")?;
    }
    for def in core.defs() {
        let body = format!(in alloc; "{:?}; ", def.body)?;
        shown.push_str(body.as_str())?;
        if let Some(Span { start, end }) = def.over {
            let over = format!(in alloc; "over {start} {end}; ")?;
            shown.push_str(over.as_str())?;
        }
        let (period, offset) = (def.grid.period, def.grid.offset);
        if period != 1 {
            let every = format!(in alloc; "every {period}; ")?;
            shown.push_str(every.as_str())?;
        }
        if offset != 0 {
            let from = format!(in alloc; "from {offset}; ")?;
            shown.push_str(from.as_str())?;
        }
    }
    Ok(shown)
}

// The core of the query of a text, or its fault.
struct Checked;

impl Shown for Checked {
    fn shown(&self, alloc: Global, text: &str) -> Result<String, Fail> {
        let query = query_of(alloc, text)?;
        match check(alloc, &query) {
            Ok(core) => show(alloc, &core),
            Err(fault) => Ok(format!(in alloc; "{fault:?}")?),
        }
    }
}

const CORES: &[(&str, &str)] = &[
    // A constant alone.
    ("emit 1 over (0, 5];", "Const(1); over 0 5; "),
    // Truth values become 1 and 0.
    (
        "emit if true and not false then 1 else 2 over (0, 5];",
        "If(Two(And, Const(1), One(Not, Const(0))), Const(1), Const(2)); over 0 5; ",
    ),
    // An input after a definition still has a number below it.
    (
        "input x; let y = x[t-2]; input z; emit y - z over (0, 5];",
        "x; z; Read { source: 0, offset: -2 }; \
         Two(Sub, Read { source: 2, offset: 0 }, Read { source: 1, offset: 0 }); over 0 5; ",
    ),
    // A definition that isn't used stays.
    (
        "input x; let a = x every 7; let b = 1; emit x over (-10, 10] every 5;",
        "x; Read { source: 0, offset: 0 }; every 7; Const(1); \
         Read { source: 0, offset: 0 }; over -10 10; every 5; ",
    ),
    // Windows, and types that fit.
    (
        "input x; let p = x > 3; emit if any(p[t-2:t]) then 1 else 0 over (0, 5];",
        "x; Two(Gt, Read { source: 0, offset: 0 }, Const(3)); \
         If(Reduce { reducer: Any, source: 1, from: -2, to: 0 }, Const(1), Const(0)); over 0 5; ",
    ),
    (
        "input x; let p = x > 3; emit count(p[t-2:t]) over (0, 5];",
        "x; Two(Gt, Read { source: 0, offset: 0 }, Const(3)); \
         Reduce { reducer: Count, source: 1, from: -2, to: 0 }; over 0 5; ",
    ),
    (
        "input x; let p = x > 3; emit if p == first(p[t-1:t+1]) then 1 else 0 over (0, 5];",
        "x; Two(Gt, Read { source: 0, offset: 0 }, Const(3)); \
         If(Two(Eq, Read { source: 1, offset: 0 }, Reduce { reducer: First, source: 1, from: -1, to: 1 }), \
         Const(1), Const(0)); over 0 5; ",
    ),
    (
        "input x; let p = ifnull(x > 3 when isnull(x), false); emit x when p over (0, 5];",
        "x; Two(IfNull, Two(When, Two(Gt, Read { source: 0, offset: 0 }, Const(3)), \
         One(IsNull, Read { source: 0, offset: 0 })), Const(0)); \
         Two(When, Read { source: 0, offset: 0 }, Read { source: 1, offset: 0 }); over 0 5; ",
    ),
    // The largest period, and the widest span.
    (
        "emit 1 over (0, 1000000000001] every 1000000000001;",
        "Const(1); over 0 1000000000001; every 1000000000001; ",
    ),
    (
        "emit 1 over (-4000000000000000000, 4000000000000000000];",
        "Const(1); over -4000000000000000000 4000000000000000000; ",
    ),
    // Grids with an offset, up to the largest, and bounds on them at and below 0.
    (
        "let a = 1 every 2 from 1; emit 1 over (-3, 12] every 5 from 2;",
        "Const(1); every 2; from 1; Const(1); over -3 12; every 5; from 2; ",
    ),
    (
        "let a = 1 every 5 from 0; emit 1 over (0, 5] every 1 from 0;",
        "Const(1); every 5; Const(1); over 0 5; ",
    ),
    (
        "emit 1 over (-1, 1000000000000] every 1000000000001 from 1000000000000;",
        "Const(1); over -1 1000000000000; every 1000000000001; from 1000000000000; ",
    ),
    // Bounds that are grid points of one definition, and not of the one that reads it.
    (
        "let a = 1 over (1, 9] every 4 from 1; emit a over (3, 11] every 4 from 3;",
        "Const(1); over 1 9; every 4; from 1; Read { source: 0, offset: 0 }; over 3 11; every 4; from 3; ",
    ),
];

const FAULTS: &[(&str, &str)] = &[
    // Names.
    (
        "input x; let x = 1; emit x over (0, 5];",
        "NameTaken { statement: 2 }",
    ),
    (
        "let x = 1; input x; emit x over (0, 5];",
        "NameTaken { statement: 2 }",
    ),
    (
        "input x; input y; input x; emit y over (0, 5];",
        "NameTaken { statement: 3 }",
    ),
    (
        "input x; emit y over (0, 5];",
        "UnknownName { statement: 2 }",
    ),
    (
        "let x = x; emit x over (0, 5];",
        "UnknownName { statement: 1 }",
    ),
    (
        "let y = sum(z[t-1:t]); input z; emit y over (0, 5];",
        "UnknownName { statement: 1 }",
    ),
    // Types.
    (
        "input x; emit x > 0 over (0, 5];",
        "TypeMismatch { statement: 2 }",
    ),
    ("emit true over (0, 5];", "TypeMismatch { statement: 1 }"),
    (
        "input x; let p = x > 3; let s = sum(p[t-2:t]); emit s over (0, 5];",
        "TypeMismatch { statement: 3 }",
    ),
    (
        "input x; let p = x > 3; emit first(p[t-2:t]) over (0, 5];",
        "TypeMismatch { statement: 3 }",
    ),
    (
        "input x; emit if x then 1 else 0 over (0, 5];",
        "TypeMismatch { statement: 2 }",
    ),
    (
        "input x; let p = x == true; emit 1 over (0, 5];",
        "TypeMismatch { statement: 2 }",
    ),
    (
        "input x; let p = any(x[t-2:t]); emit 1 over (0, 5];",
        "TypeMismatch { statement: 2 }",
    ),
    (
        "input x; emit if true then x else false over (0, 5];",
        "TypeMismatch { statement: 2 }",
    ),
    ("emit -true over (0, 5];", "TypeMismatch { statement: 1 }"),
    // Windows.
    (
        "input x; emit sum(x[t:t]) over (0, 5];",
        "BadWindow { statement: 2 }",
    ),
    (
        "input x; let y = 1 + max(x[t+1:t-1]); emit y over (0, 5];",
        "BadWindow { statement: 2 }",
    ),
    // Spans and periods.
    (
        "input x; emit x over (0, 7] every 5;",
        "BadDomain { statement: 2 }",
    ),
    (
        "input x; emit x over (-7, 5] every 5;",
        "BadDomain { statement: 2 }",
    ),
    (
        "input x; let y = x over (5, 5]; emit y over (0, 5];",
        "BadDomain { statement: 2 }",
    ),
    ("emit 1 over (5, 0];", "BadDomain { statement: 1 }"),
    (
        "emit 1 over (-4000000000000000001, 5];",
        "BadDomain { statement: 1 }",
    ),
    (
        "emit 1 over (0, 4000000000000000001];",
        "BadDomain { statement: 1 }",
    ),
    ("emit 1 over (0, 5] every 0;", "BadDomain { statement: 1 }"),
    (
        "let y = 1 every 1000000000002; emit y over (0, 5];",
        "BadDomain { statement: 1 }",
    ),
    // Offsets that aren't below the period, and bounds off a grid with one.
    (
        "emit 1 over (5, 10] every 5 from 5;",
        "BadDomain { statement: 1 }",
    ),
    (
        "emit 1 over (1, 2] every 1 from 1;",
        "BadDomain { statement: 1 }",
    ),
    (
        "let a = 1 every 5 from 7; emit a over (0, 5];",
        "BadDomain { statement: 1 }",
    ),
    (
        "emit 1 over (0, 5] every 1000000000002 from 1;",
        "BadDomain { statement: 1 }",
    ),
    (
        "emit 1 over (0, 10] every 5 from 2;",
        "BadDomain { statement: 1 }",
    ),
    (
        "emit 1 over (2, 10] every 5 from 2;",
        "BadDomain { statement: 1 }",
    ),
    (
        "emit 1 over (-2, 12] every 5 from 2;",
        "BadDomain { statement: 1 }",
    ),
    (
        "let a = 1 over (3, 11] every 4 from 1; emit a over (3, 11] every 4 from 3;",
        "BadDomain { statement: 1 }",
    ),
    // The first fault of several in one statement.
    (
        "input x; let x = y; emit 1 over (0, 5];",
        "NameTaken { statement: 2 }",
    ),
    ("emit y and 1 over (5, 0];", "UnknownName { statement: 1 }"),
    (
        "input x; emit sum(x[t:t]) > 0 over (5, 0];",
        "TypeMismatch { statement: 2 }",
    ),
    (
        "input x; emit sum(x[t:t]) over (5, 0];",
        "BadWindow { statement: 2 }",
    ),
    // The first faulty statement of several.
    (
        "let a = b; let a = 1; emit c over (0, 5];",
        "UnknownName { statement: 1 }",
    ),
    (
        "let a = 1 over (5, 0]; let a = 1; emit c over (0, 5];",
        "BadDomain { statement: 1 }",
    ),
];

#[test]
fn queries_are_checked(rt: HostRuntime) -> Result<(), Fail> {
    assert_shown(&rt, rt.alloc(), CORES, &Checked)?;
    assert_shown(&rt, rt.alloc(), FAULTS, &Checked)
}
