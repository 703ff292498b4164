// How many snapshots of a source a window can meet.
ghost use Rattle.std.specs.Prelude.{◌≡◌, ◌≤◌, ◌+◌, ◌*◌, ◌/◌, ◌^◌, ◌++◌, [], ◌∷◌, length, map, min, IfOk, OnOk};
ghost use Rattle.tilt_core.specs.Core.{AreDefinitions};
ghost use Rattle.tilt_core.specs.CoreTree.{nodes, tree_of};
ghost use Rattle.tilt_magnitudes.specs.Marks.{input_marks, marks_at, marks_in, marks_of_body, marks_of_definition, marks_on_grid};
ghost use Rattle.tilt_magnitudes.specs.Marks.{marks_over, snapshots_met};

use std::alloc::{AllocError as OutOfMemory, Global};
use tilt_base::{Grid, Span};
use tilt_core::{Core, Def, Tree};

/// How often the snapshots of an input may start: at most `marks` of them in any `ticks` ticks. If `ticks` is 0, nothing is known.
#[derive(Clone, Copy, Debug, PartialEq, Eq)]
pub struct Rate {
    pub marks: u64,
    pub ticks: u64,
}

/// How many snapshots of a source a window of so many ticks can meet, if the inputs of the query have these rates.
pub fn snapshots_met(
    alloc: Global,
    rates: &[Rate],
    core: &Core,
    ticks: u64,
    source: u32,
) -> Result<u64, OutOfMemory>
    ensures { IfOk result (λ most. most ≡ snapshots_met ticks (marks_in rates.now core.now.defs ticks) source) }
{
    let defs = core.defs();
    let marks = marks_in(alloc, rates, core.inputs().len(), defs, ticks)?;
    Ok(one_more(ticks, marks_at(&marks, source)))
}

// One more, and at most one a tick.
fn one_more(ticks: u64, marks: u64) -> u64
    ensures { result ≡ min ticks (1 + marks) }
{
    if marks < ticks { marks + 1 } else { ticks }
}

// How many marks each source can have in so many ticks. The definitions follow a number of sources.
fn marks_in(
    alloc: Global,
    rates: &[Rate],
    before: usize,
    defs: &[Def],
    ticks: u64,
) -> Result<Vec<u64>, OutOfMemory>
    requires { AreDefinitions before defs.now }
    ensures { IfOk result (λ marks. marks.items ≡ marks_in rates.now defs.now ticks) }
{
    let mut marks = marks_of_inputs(alloc, rates, ticks)?;
    for place in 0..defs.len() {
        push_definition(&mut marks, ticks, &defs[place])?;
    }
    Ok(marks)
}

// Those of the inputs.
fn marks_of_inputs(alloc: Global, rates: &[Rate], ticks: u64) -> Result<Vec<u64>, OutOfMemory>
    ensures { IfOk result (λ marks. marks.items ≡ map (input_marks ticks) rates.now) }
{
    let mut marks = Vec::new(alloc);
    for rate in rates {
        push_input(&mut marks, ticks, *rate)?;
    }
    Ok(marks)
}

// Adds those of an input.
fn push_input(marks: &mut Vec<u64>, ticks: u64, rate: Rate) -> Result<(), OutOfMemory>
    ensures { OnOk result (marks.new.items ≡ marks.old.items ++ input_marks ticks rate ∷ []) }
{
    marks.push(input_marks(ticks, rate))?;
    Ok(())
}

// How many marks an input can have.
fn input_marks(ticks: u64, rate: Rate) -> u64
    ensures { result ≡ input_marks ticks rate }
{
    if rate.ticks == 0 {
        ticks
    } else {
        at_most(ticks, u128::from(rate.marks) * stretches(rate.ticks, ticks))
    }
}

// How many stretches of so many ticks cover others.
fn stretches(ticks: u64, others: u64) -> u128
    requires { 1 ≤ ticks }
    ensures value { result ≡ others / ticks + 1 }
    ensures bound { result ≤ 2 ^ 64 }
{
    u128::from(others / ticks) + 1
}

// The smaller of the two.
fn at_most(ticks: u64, marks: u128) -> u64
    ensures { result ≡ min ticks marks }
{
    if marks < u128::from(ticks) {
        marks as u64
    } else {
        ticks
    }
}

// Adds those of a definition.
fn push_definition(marks: &mut Vec<u64>, ticks: u64, def: &Def) -> Result<(), OutOfMemory>
    requires { nodes def.now.body ≤ 256 }
    ensures { OnOk result (marks.new.items ≡ marks.old.items ++ marks_of_definition ticks marks.old.items def.now ∷ []) }
{
    let most = marks_of_definition(ticks, marks, def);
    marks.push(most)?;
    Ok(())
}

// How many marks a definition can have.
fn marks_of_definition(ticks: u64, marks: &[u64], def: &Def) -> u64
    requires { nodes def.now.body ≤ 256 }
    ensures { result ≡ marks_of_definition ticks marks.now def.now }
{
    let body = marks_of_body(marks, &def.body);
    at_most(
        ticks,
        marks_over(def.over, marks_on_grid(ticks, def.grid, body)),
    )
}

// On a grid.
fn marks_on_grid(ticks: u64, grid: Grid, marks: u128) -> u128
    requires { marks ≤ 2 ^ 80 }
    ensures value { result ≡ marks_on_grid ticks grid marks }
    ensures bound { result ≤ 2 ^ 80 }
{
    if grid.period == 1 {
        marks
    } else {
        stretches(grid.period.unsigned_abs(), ticks)
    }
}

// With the ends of a span.
fn marks_over(over: Option<Span>, marks: u128) -> u128
    requires { marks ≤ 2 ^ 80 }
    ensures { result ≡ marks_over over marks }
{
    match over {
        None => marks,
        Some(_) => 2 + marks,
    }
}

// How many marks an expression can have.
fn marks_of_body(marks: &[u64], tree: &Tree) -> u128
    requires { nodes (tree_of tree.now) ≤ 256 }
    ensures value { result ≡ marks_of_body marks.now (tree_of tree.now) }
    ensures bound { result ≤ 2 ^ 65 * nodes (tree_of tree.now) }
{
    match tree {
        Tree::Const(_) => 0,
        Tree::Read { source, .. } => u128::from(marks_at(marks, *source)),
        Tree::Reduce { source, .. } => {
            let most = u128::from(marks_at(marks, *source));
            most + most
        }
        Tree::One(_, a) => marks_of_body(marks, a),
        Tree::Two(_, a, b) => marks_of_body(marks, a) + marks_of_body(marks, b),
        Tree::If(c, a, b) => {
            marks_of_body(marks, c) + marks_of_body(marks, a) + marks_of_body(marks, b)
        }
    }
}

// How many marks a source can have.
fn marks_at(marks: &[u64], source: u32) -> u64
    ensures { result ≡ marks_at marks.now source }
{
    let place = source as usize;
    if place < marks.len() { marks[place] } else { 0 }
}
