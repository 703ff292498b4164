// What is explained of queries.
use crate::table::{Shown, assert_shown};
use std::alloc::Global;
use std::test::Fail;
use tilt_bounds::reach;
use tilt_explain::explain_text;
use tilt_testing::core_of;

// What is explained of a query.
struct Told;

impl Shown for Told {
    fn shown(&self, alloc: Global, text: &str) -> Result<String, Fail> {
        let core = core_of(alloc, text)?;
        let margins = reach(alloc, &core)?;
        let told = explain_text(alloc, &core, &margins)?;
        Ok(String::from_utf8_lossy(alloc, &told)?)
    }
}

const QUERIES: &[(&str, &str)] = &[
    (
        "input x; let y = x[t-2]; emit sum(y[t-3:t]) over (0, 5];",
        "reach 4 0\ninput x 4 0\nlet y merged 2 0\nemit loop 0 0\nloops 1 2\n",
    ),
    // A definition on a grid isn't merged.
    (
        "input temp; input limit; let avg10 = avg(temp[t-10:t]) every 10; emit avg10 - limit when avg10 > limit over (0, 30];",
        "reach 9 9\ninput temp 9 9\ninput limit 0 0\nlet avg10 loop 0 0\nemit loop 0 0\nloops 2 2\n",
    ),
    // But on the grid of each tick it is.
    (
        "input x; let a = x + 1; let b = x * 2 every 1 from 0; emit a[t-1] + b over (0, 5] every 5 from 0;",
        "reach 1 4\ninput x 1 4\nlet a merged 1 4\nlet b merged 0 4\nemit loop 0 0\nloops 1 3\n",
    ),
    (
        "input x; input y; let u = y; emit x[t+1] over (0, 5];",
        "reach 0 1\ninput x 0 1\ninput y unused\nlet u unused\nemit loop 0 0\nloops 1 1\n",
    ),
];

#[test]
fn queries_are_explained(rt: HostRuntime) -> Result<(), Fail> {
    assert_shown(&rt, rt.alloc(), QUERIES, &Told)
}
