// Pipelines of operators: which texts are some, for which fault a text is none, and the query of each.
use crate::table::{Shown, assert_same, assert_shown};
use std::alloc::Global;
use std::process::Abort;
use std::test::Fail;
use tilt_operators::{FlowFault, desugar, flow_inputs, read_flow};
use tilt_syntax::print;
use tilt_testing::{name_text, repeated};

// Pipelines, and their queries as they are printed.
const PIPELINES: &[(&str, &str)] = &[
    (
        "from x; emit over (0, 5];",
        "input x;\nemit x over (0, 5];\n",
    ),
    (
        "from x; join y v - w; shift 2; emit over (0, 8];",
        "input x;\ninput y;\nlet _1 = x - y when not isnull(x) and not isnull(y);\nlet _2 = _1[t-2];\nemit _2 over (0, 8];\n",
    ),
    (
        "from x; where v > 3; window count 3; emit over (0, 10];",
        "input x;\nlet _1 = x when x > 3;\nlet _2 = count(_1[t-3:t]);\nemit _2 over (0, 10];\n",
    ),
    (
        "from x;select v+v[t]*2;shift -3;shift 0;emit over(-5,-0];",
        "input x;\nlet _1 = x + x * 2 when not isnull(x);\nlet _2 = _1[t+3];\nlet _3 = _2;\nemit _3 over (-5, 0];\n",
    ),
    (
        "from x; select if isnull(v) then 1 else ifnull(v, 2); emit over (0, 5];",
        "input x;\nlet _1 = (if isnull(x) then 1 else ifnull(x, 2)) when not isnull(x);\nemit _1 over (0, 5];\n",
    ),
    // Words of steps and operands are names too; both operands' names are replaced at once.
    (
        "from select; join where w; emit over (0, 5];",
        "input select;\ninput where;\nlet _1 = where when not isnull(select) and not isnull(where);\nemit _1 over (0, 5];\n",
    ),
    (
        "from w; join v v - w; emit over (0, 5];",
        "input w;\ninput v;\nlet _1 = w - v when not isnull(w) and not isnull(v);\nemit _1 over (0, 5];\n",
    ),
    // The widest of all.
    (
        "from x; window last 9223372036854775807; shift 9223372036854775807; shift -9223372036854775807; emit over (-4000000000000000000, 4000000000000000000];",
        "input x;\nlet _1 = last(x[t-9223372036854775807:t]);\nlet _2 = _1[t-9223372036854775807];\nlet _3 = _2[t+9223372036854775807];\nemit _3 over (-4000000000000000000, 4000000000000000000];\n",
    ),
    (
        "from x; window sum 1; window avg 1; window min 1; window max 1; window first 1; emit over (0, 5];",
        "input x;\nlet _1 = sum(x[t-1:t]);\nlet _2 = avg(_1[t-1:t]);\nlet _3 = min(_2[t-1:t]);\nlet _4 = max(_3[t-1:t]);\nlet _5 = first(_4[t-1:t]);\nemit _5 over (0, 5];\n",
    ),
];

// The query of a pipeline, as it is printed.
struct Desugared;

impl Shown for Desugared {
    fn shown(&self, alloc: Global, text: &str) -> Result<String, Fail> {
        let flow = read_flow(alloc, text.as_bytes())?;
        let query = desugar(alloc, &flow)?;
        let printed = print(alloc, &query)?;
        Ok(String::from_utf8_lossy(alloc, &printed)?)
    }
}

#[test]
fn pipelines_have_queries(rt: HostRuntime) -> Result<(), Fail> {
    assert_shown(&rt, rt.alloc(), PIPELINES, &Desugared)
}

// Pipelines, and the names of the series that they read, in the order of their first mention.
const INPUTS: &[(&str, &str)] = &[
    ("from b; emit over (0, 5];", "b "),
    (
        "from b; join a v; join b w; join c v + w; join a w; emit over (0, 5];",
        "b a c ",
    ),
    (
        "from x1; join x v; join x_ w; join x1 v; emit over (0, 5];",
        "x1 x x_ ",
    ),
];

// The names of the series that a pipeline reads.
struct InputNames;

impl Shown for InputNames {
    fn shown(&self, alloc: Global, text: &str) -> Result<String, Fail> {
        let flow = read_flow(alloc, text.as_bytes())?;
        let names = flow_inputs(alloc, &flow)?;
        let mut all = String::new(alloc);
        for name in &names {
            all.push_str(name_text(name)?)?;
            all.push_str(" ")?;
        }
        Ok(all)
    }
}

#[test]
fn pipelines_read_inputs_in_order(rt: HostRuntime) -> Result<(), Fail> {
    assert_shown(&rt, rt.alloc(), INPUTS, &InputNames)
}

// Ends the test unless this is the fault for which the text is no pipeline.
fn assert_fault(rt: &impl Abort, alloc: Global, text: &str, want: Option<&FlowFault>) {
    let found = read_flow(alloc, text.as_bytes()).err();
    assert_same(rt, &found.as_ref(), &want, &text);
}

// Texts of which a step breaks a rule, and the number of the first that does.
const BAD_STEPS: &[(&str, u32)] = &[
    ("", 1),
    (" ", 1),
    (";", 1),
    ("from x", 1),
    ("from x;", 1),
    ("from x y; emit over (0, 5];", 1),
    ("from sum; emit over (0, 5];", 1),
    ("from _; emit over (0, 5];", 1),
    ("from _1; emit over (0, 5];", 1),
    ("emit over (0, 5];", 1),
    ("select v; emit over (0, 5];", 1),
    // The last step.
    ("from x; emit over (0, 5]", 2),
    ("from x; emit over (0, 5];;", 2),
    ("from x; select v;", 2),
    ("from x; select v; emit over (0, 5]; v", 3),
    ("from x; emit over (0, 5] every 5;", 2),
    ("from x; emit x over (0, 5];", 2),
    ("from x; emit over (0, 5);", 2),
    ("from x; emit over (5, 5];", 2),
    ("from x; emit over (0, v];", 2),
    ("from x; emit over (-4000000000000000001, 5];", 2),
    ("from x; emit over (0, 4000000000000000001];", 2),
    // A step without `;`.
    ("from x; select v emit over (0, 5];", 2),
    ("from x select v; emit over (0, 5];", 1),
    // The steps between.
    ("from x; from y; emit over (0, 5];", 2),
    ("from x; emit over (0, 5]; emit over (0, 5];", 2),
    ("from x; let v; emit over (0, 5];", 2),
    ("from x; select; emit over (0, 5];", 2),
    ("from x; select v v; emit over (0, 5];", 2),
    ("from x; select w; emit over (0, 5];", 2),
    ("from x; select x; emit over (0, 5];", 2),
    ("from x; select v[t-1]; emit over (0, 5];", 2),
    ("from x; select sum(v[t-1:t]); emit over (0, 5];", 2),
    ("from x; where v > w; emit over (0, 5];", 2),
    ("from x; shift; emit over (0, 5];", 2),
    ("from x; shift v; emit over (0, 5];", 2),
    ("from x; shift 1 2; emit over (0, 5];", 2),
    ("from x; window sum 0; emit over (0, 5];", 2),
    ("from x; window sum -1; emit over (0, 5];", 2),
    ("from x; window sum; emit over (0, 5];", 2),
    ("from x; window any 3; emit over (0, 5];", 2),
    ("from x; window all 3; emit over (0, 5];", 2),
    ("from x; window median 3; emit over (0, 5];", 2),
    ("from x; join y; emit over (0, 5];", 2),
    ("from x; join _1 v; emit over (0, 5];", 2),
    ("from x; join y v + y; emit over (0, 5];", 2),
    ("from x; join y w[t-1]; emit over (0, 5];", 2),
    ("from x; join y last(w[t-1:t]); emit over (0, 5];", 2),
    // The first of several, though a step before it has the wrong type.
    ("from x; shift v; select w; emit over (5, 5];", 2),
    (
        "from x; where v; select true; select w; emit over (0, 5];",
        4,
    ),
    ("from x; where v; emit over (5, 5];", 3),
];

#[test]
fn the_first_bad_step_is_told(rt: HostRuntime) {
    for (text, step) in BAD_STEPS {
        let want = FlowFault::BadStep { step: *step };
        assert_fault(&rt, rt.alloc(), text, Some(&want));
    }
}

// Texts of which an expression has the wrong type, and the number of its step.
const WRONG_TYPES: &[(&str, u32)] = &[
    ("from x; select v > 1; emit over (0, 5];", 2),
    ("from x; select true; emit over (0, 5];", 2),
    ("from x; select v + (v > 1); emit over (0, 5];", 2),
    ("from x; where v; emit over (0, 5];", 2),
    ("from x; where v + 1; emit over (0, 5];", 2),
    ("from x; where ifnull(v, true); emit over (0, 5];", 2),
    ("from x; join y v > w; emit over (0, 5];", 2),
    ("from x; join y not w; emit over (0, 5];", 2),
    (
        "from x; where v > 1; select true; where v; emit over (0, 5];",
        3,
    ),
];

#[test]
fn the_first_step_of_a_wrong_type_is_told(rt: HostRuntime) {
    for (text, step) in WRONG_TYPES {
        let want = FlowFault::StepType { step: *step };
        assert_fault(&rt, rt.alloc(), text, Some(&want));
    }
}

const FAULTY_PLACES: &[(&str, FlowFault)] = &[
    ("from x; select v ~ 1;", FlowFault::BadByte { at: 17 }),
    ("~", FlowFault::BadByte { at: 0 }),
    (
        "to x; where v; ~ 9223372036854775808",
        FlowFault::BadByte { at: 15 },
    ),
    (
        "from x; shift 9223372036854775808;",
        FlowFault::BigNumber { at: 14 },
    ),
];

#[test]
fn a_faulty_place_is_told_before_all_steps(rt: HostRuntime) {
    for (text, want) in FAULTY_PLACES {
        assert_fault(&rt, rt.alloc(), text, Some(want));
    }
}

const BAD_2: Option<FlowFault> = Some(FlowFault::BadStep { step: 2 });

const BAD_100: Option<FlowFault> = Some(FlowFault::BadStep { step: 100 });

const BAD_101: Option<FlowFault> = Some(FlowFault::BadStep { step: 101 });

// How a text starts, a part that comes so often after it, how it ends, and its fault: steps of 200 and 201 tokens, and 100 and 101 steps.
const LONG: &[(&str, &str, usize, &str, Option<FlowFault>)] = &[
    ("from x; select ", "-", 197, "v; emit over (0, 5];", None),
    ("from x; select ", "-", 198, "v; emit over (0, 5];", BAD_2),
    ("from x; where ", "(", 300, "", BAD_2),
    ("from x; ", "shift 1;", 98, "emit over (0, 5];", None),
    ("from x; ", "shift 1;", 99, "emit over (0, 5];", BAD_101),
    ("from x; ", "shift 1;", 100, "", BAD_101),
    ("from x; ", "shift 1;", 98, "emit over (0, 5]; v;", BAD_100),
    ("from x; ", "shift 1;", 98, "shift v; shift w;", BAD_100),
    ("from x; ", "shift 1;", 300, "shift v;", BAD_101),
];

#[test]
fn steps_are_short_and_few(rt: HostRuntime) -> Result<(), Fail> {
    for (start, part, times, end, want) in LONG {
        let text = repeated(rt.alloc(), start, part, *times, end)?;
        assert_fault(&rt, rt.alloc(), text.as_str(), want.as_ref());
    }
    Ok(())
}
