// The loops of queries.
use crate::table::{Shown, assert_same, assert_shown};
use std::alloc::Global;
use std::test::Fail;
use tilt_bounds::reach;
use tilt_fuse::{LoopList, plan};
use tilt_testing::core_of;

// Queries, and their loops where no definitions are merged.
const PLAIN: &[(&str, &str)] = &[
    // A loop for each definition that is used, and none for the others.
    (
        "input x; input y; let z = y[t-5]; let w = z[t-2]; emit -x over (0, 5];",
        "LoopList { loops: [PlanLoop { def: 2, body: One(Neg, Port { source: 0, offset: 0 }) }] }",
    ),
    // A source that only a window names, and one that only a branch names.
    (
        "input x; let y = x[t+2]; let z = 7; emit if x == 1 then sum(y[t-3:t]) else z over (0, 5];",
        "LoopList { loops: [PlanLoop { def: 0, body: Port { source: 0, offset: 2 } }, \
         PlanLoop { def: 1, body: Const(7) }, \
         PlanLoop { def: 2, body: If(Two(Eq, Port { source: 0, offset: 0 }, Const(1)), \
         Win { reducer: Sum, source: 1, from: -3, to: 0, map: None }, Port { source: 2, offset: 0 }) }] }",
    ),
];

// And where definitions are.
const MERGED: &[(&str, &str)] = &[
    // A shift of a window, and a window on what is made from one reading.
    (
        "input x; let w = sum(x[t-3:t]); emit w[t-2] over (0, 5];",
        "LoopList { loops: [PlanLoop { def: 1, body: Win { reducer: Sum, source: 0, from: -5, to: -2, map: None } }] }",
    ),
    (
        "input x; let y = x[t-2] + 1; emit sum(y[t-3:t]) over (0, 5];",
        "LoopList { loops: [PlanLoop { def: 1, body: Win { reducer: Sum, source: 0, from: -5, to: -2, \
         map: Some(Two(Add, Argument, Const(1))) } }] }",
    ),
    // A constant as a window's source has no reading, and `every 1` counts as no grid.
    (
        "input x; let k = 3; let y = -x every 1; emit sum(k[t-2:t]) + y over (0, 5];",
        "LoopList { loops: [PlanLoop { def: 0, body: Const(3) }, \
         PlanLoop { def: 2, body: Two(Add, Win { reducer: Sum, source: 1, from: -2, to: 0, map: None }, \
         One(Neg, Port { source: 0, offset: 0 })) }] }",
    ),
];

// The loops of a query's text.
fn loops_of(alloc: Global, text: &str, fuse: bool) -> Result<LoopList, Fail> {
    let core = core_of(alloc, text)?;
    // A plan is asked only of a query that doesn't look too far.
    let _ = reach(alloc, &core)?;
    Ok(plan(alloc, &core, fuse)?)
}

// The loops of a query's text, with or without definitions that are merged.
struct Planned {
    fuse: bool,
}

impl Shown for Planned {
    fn shown(&self, alloc: Global, text: &str) -> Result<String, Fail> {
        let loops = loops_of(alloc, text, self.fuse)?;
        Ok(format!(in alloc; "{loops:?}")?)
    }
}

#[test]
fn plans_are_those_worked_out(rt: HostRuntime) -> Result<(), Fail> {
    assert_shown(&rt, rt.alloc(), PLAIN, &Planned { fuse: false })?;
    assert_shown(&rt, rt.alloc(), MERGED, &Planned { fuse: true })
}

// A definition of 64 nodes and one of 65.
const SIZES: &[(&str, usize)] = &[
    (
        "input x; let a = -(x + x + x + x + x + x + x + x + \
         x + x + x + x + x + x + x + x + \
         x + x + x + x + x + x + x + x + \
         x + x + x + x + x + x + x + x); emit a over (0, 5];",
        1,
    ),
    (
        "input x; let a = x + x + x + x + x + x + x + x + x + \
         x + x + x + x + x + x + x + x + \
         x + x + x + x + x + x + x + x + \
         x + x + x + x + x + x + x + x; emit a over (0, 5];",
        2,
    ),
];

#[test]
fn trees_of_64_nodes_are_merged(rt: HostRuntime) -> Result<(), Fail> {
    for (text, want) in SIZES {
        let list = loops_of(rt.alloc(), text, true)?;
        assert_same(&rt, &list.loops.len(), want, text);
    }
    Ok(())
}
