// The cells of a query's sources, at one tick.
ghost use Rattle.std.specs.Prelude.{◌≡◌, ◌++◌, [], ◌∷◌, ◌+◌, ◌*◌, ◌^◌, ◌<◌, ◌≤◌, ◌||◌, pos, ◌+ℤ◌, length, IfOk, OnOk};
ghost use Rattle.std.specs.Ordering.{int_eq};
ghost use Rattle.tilt_base.specs.Reduce.{numbers};
ghost use Rattle.tilt_core.specs.CoreTree.{tree_of};
ghost use Rattle.tilt_evaluator.specs.Evaluate.{IsNear};
ghost use Rattle.tilt_core.specs.Meaning.{body_of, definition_of, meaning, sources};
ghost use Rattle.tilt_stream.specs.Window.{met};

use crate::marks::source_mark;
use crate::rows::row_cell;
use crate::tick::{ceil, lies_in};
use std::alloc::{AllocError as OutOfMemory, Global};
use tilt_base::{Cell, apply1, apply2, choose, reduce};
use tilt_core::{Def, Tree};
use tilt_stream::Rows;

/// The cell of a source at the tick.
#[cycle(cells)]
pub fn source_cell(
    alloc: Global,
    inputs: &[Rows],
    defs: &[Def],
    source: u32,
    tick: i128,
) -> Result<Cell, OutOfMemory>
    requires few { length defs.now ≤ 2 ^ 32 }
    requires near { IsNear (2 ^ 65 * length defs.now) tick }
    ensures { IfOk result (λ cell. cell ≡ (meaning inputs.now defs.now source).cell tick) }
{
    let source = source as usize;
    if source < inputs.len() {
        return Ok(row_cell(inputs[source].as_slice(), tick));
    }
    let place = source - inputs.len();
    if place < defs.len() {
        return definition_cell(alloc, inputs, &defs[..place], &defs[place], tick);
    }
    Ok(None)
}

// The cell of a definition over the sources.
#[cycle(cells)]
fn definition_cell(
    alloc: Global,
    inputs: &[Rows],
    defs: &[Def],
    def: &Def,
    tick: i128,
) -> Result<Cell, OutOfMemory>
    requires few { length defs.now < 2 ^ 32 }
    requires near { IsNear (2 ^ 65 * (length defs.now + 1)) tick }
    ensures { IfOk result (λ cell. cell ≡ (definition_of (sources inputs.now defs.now) def.now).cell tick) }
{
    match def.over {
        Some(span) if !lies_in(span, tick) => Ok(None),
        _ => body_cell(alloc, inputs, defs, &def.body, ceil(def.grid, tick)),
    }
}

// The cell of an expression over the sources.
#[cycle(cells)]
fn body_cell(
    alloc: Global,
    inputs: &[Rows],
    defs: &[Def],
    body: &Tree,
    tick: i128,
) -> Result<Cell, OutOfMemory>
    requires few { length defs.now < 2 ^ 32 }
    requires near { IsNear (2 ^ 65 * length defs.now + 2 ^ 64) tick }
    ensures { IfOk result (λ cell. cell ≡ (body_of (sources inputs.now defs.now) (tree_of body.now)).cell tick) }
{
    match body {
        Tree::Const(number) => Ok(Some(*number)),
        Tree::Read { source, offset } => {
            source_cell(alloc, inputs, defs, *source, tick + i128::from(*offset))
        }
        Tree::Reduce {
            reducer,
            source,
            from,
            to,
        } => {
            let lo = tick + i128::from(*from);
            let hi = tick + i128::from(*to);
            let members = numbers_met(alloc, inputs, defs, *source, lo, hi)?;
            Ok(reduce(*reducer, &members))
        }
        Tree::One(op, a) => {
            let a = body_cell(alloc, inputs, defs, a, tick)?;
            Ok(apply1(*op, a))
        }
        Tree::Two(op, a, b) => {
            let a = body_cell(alloc, inputs, defs, a, tick)?;
            let b = body_cell(alloc, inputs, defs, b, tick)?;
            Ok(apply2(*op, a, b))
        }
        Tree::If(c, a, b) => {
            let c = body_cell(alloc, inputs, defs, c, tick)?;
            let a = body_cell(alloc, inputs, defs, a, tick)?;
            let b = body_cell(alloc, inputs, defs, b, tick)?;
            Ok(choose(c, a, b))
        }
    }
}

// The numbers among the cells of the snapshots of a source that meet the ticks of `(lo, hi]`.
#[cycle(cells)]
fn numbers_met(
    alloc: Global,
    inputs: &[Rows],
    defs: &[Def],
    source: u32,
    lo: i128,
    hi: i128,
) -> Result<Vec<i64>, OutOfMemory>
    requires few { length defs.now ≤ 2 ^ 32 }
    requires near_lo { IsNear (2 ^ 65 * length defs.now) lo }
    requires near_hi { IsNear (2 ^ 65 * length defs.now) hi }
    ensures { IfOk result (λ members. members.items ≡ numbers (met (meaning inputs.now defs.now source) lo hi)) }
{
    let mut members = Vec::new(alloc);
    for before in lo..hi {
        if begins_behind(inputs, defs, source, lo, before) {
            let cell = source_cell(alloc, inputs, defs, source, before + 1)?;
            push_number(&mut members, cell)?;
        }
    }
    Ok(members)
}

// Whether the window begins after the tick `before`, or a snapshot of the source does.
fn begins_behind(inputs: &[Rows], defs: &[Def], source: u32, lo: i128, before: i128) -> bool
    requires few { length defs.now ≤ 2 ^ 32 }
    requires near { IsNear (2 ^ 65 * length defs.now) (before +ℤ pos 1) }
    ensures { result ≡ (int_eq before lo || (meaning inputs.now defs.now source).mark (before +ℤ pos 1)) }
{
    before == lo || source_mark(inputs, defs, source, before + 1)
}

// Adds the number of a cell, where it isn't null.
fn push_number(members: &mut Vec<i64>, cell: Cell) -> Result<(), OutOfMemory>
    ensures { OnOk result (members.new.items ≡ members.old.items ++ numbers (cell ∷ [])) }
{
    if let Some(number) = cell {
        members.push(number)?;
    }
    Ok(())
}
