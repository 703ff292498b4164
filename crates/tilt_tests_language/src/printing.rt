// Queries that are read and printed.
use crate::table::{Shown, assert_shown};
use std::alloc::Global;
use std::test::Fail;
use tilt_syntax::print;
use tilt_testing::query_of;

// A query, and its text as it is printed.
const QUERIES: &[(&str, &str)] = &[
    (
        "input x;let q=((x[t+0])+(1))*-(2);let r=a-(b-c);emit(q)over(-5,-0]every 5;",
        "input x;\nlet q = (x + 1) * -2;\nlet r = a - (b - c);\nemit q over (-5, 0] every 5;\n",
    ),
    (
        "let a=1 over(0,9];let b=2 every 3;let c=3 over(-9,-4]every 007;emit a over(0,9];",
        "let a = 1 over (0, 9];\nlet b = 2 every 3;\nlet c = 3 over (-9, -4] every 7;\nemit a over (0, 9];\n",
    ),
    (
        "let a=1 every 7 from 003;let b=2 over(1,9]every 5from 0;emit a over(-1,9]every 010 from 9;",
        "let a = 1 every 7 from 3;\nlet b = 2 over (1, 9] every 5;\nemit a over (-1, 9] every 10 from 9;\n",
    ),
    (
        "emit --5-(3-2)over(-5,0]every 5;",
        "emit --5 - (3 - 2) over (-5, 0] every 5;\n",
    ),
    ("emit(a-b)-c over(0,5];", "emit a - b - c over (0, 5];\n"),
    ("emit a%(b/c) over(0,5];", "emit a % (b / c) over (0, 5];\n"),
    ("emit -(-(x)) over(0,5];", "emit --x over (0, 5];\n"),
    ("emit -(a*b) over(0,5];", "emit -(a * b) over (0, 5];\n"),
    ("emit (-a)*b over(0,5];", "emit -a * b over (0, 5];\n"),
    (
        "emit not(not(a)) over(0,5];",
        "emit not not a over (0, 5];\n",
    ),
    (
        "emit not(a and b) over(0,5];",
        "emit not (a and b) over (0, 5];\n",
    ),
    (
        "emit (not a)and b over(0,5];",
        "emit not a and b over (0, 5];\n",
    ),
    (
        "emit (a<b)or((c>=d)and(e!=f)) over(0,5];",
        "emit a < b or c >= d and e != f over (0, 5];\n",
    ),
    (
        "emit (a or b)and c over(0,5];",
        "emit (a or b) and c over (0, 5];\n",
    ),
    (
        "emit (a==b)==(c<=d) over(0,5];",
        "emit (a == b) == (c <= d) over (0, 5];\n",
    ),
    (
        "emit (a when b)when c over(0,5];",
        "emit a when b when c over (0, 5];\n",
    ),
    (
        "emit a when(b when c)over(0,5];",
        "emit a when (b when c) over (0, 5];\n",
    ),
    (
        "emit (if a then b else c)+1 over(0,5];",
        "emit (if a then b else c) + 1 over (0, 5];\n",
    ),
    (
        "emit if(if a then b else c)then(1)else(if true then 2 else 3)over(0,5];",
        "emit if if a then b else c then 1 else if true then 2 else 3 over (0, 5];\n",
    ),
    (
        "emit ifnull((a),(b or c))+isnull((false)) over(0,5];",
        "emit ifnull(a, b or c) + isnull(false) over (0, 5];\n",
    ),
    (
        "emit sum(x[t-3:t-0])+max(x[t+1:t+4]) over(0,5];",
        "emit sum(x[t-3:t]) + max(x[t+1:t+4]) over (0, 5];\n",
    ),
    (
        "emit x[t + 003]+x[t-0]+x[t-2] over(0,5];",
        "emit x[t+3] + x + x[t-2] over (0, 5];\n",
    ),
];

// The query of a text, as it is printed.
struct Printed;

impl Shown for Printed {
    fn shown(&self, alloc: Global, text: &str) -> Result<String, Fail> {
        let query = query_of(alloc, text)?;
        let printed = print(alloc, &query)?;
        Ok(String::from_utf8_lossy(alloc, &printed)?)
    }
}

// The same of the text that is printed.
struct Reprinted;

impl Shown for Reprinted {
    fn shown(&self, alloc: Global, text: &str) -> Result<String, Fail> {
        let printed = Printed.shown(alloc, text)?;
        Printed.shown(alloc, printed.as_str())
    }
}

#[test]
fn queries_are_printed_in_one_way(rt: HostRuntime) -> Result<(), Fail> {
    assert_shown(&rt, rt.alloc(), QUERIES, &Printed)?;
    assert_shown(&rt, rt.alloc(), QUERIES, &Reprinted)
}
