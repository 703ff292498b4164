// The marks of a query's sources, at one tick.
ghost use Rattle.std.specs.Prelude.{◌≡◌, ◌+◌, ◌*◌, ◌^◌, ◌<◌, ◌≤◌, length};
ghost use Rattle.tilt_core.specs.CoreTree.{tree_of};
ghost use Rattle.tilt_stream.specs.Domain.{on_grid, some_mark};
ghost use Rattle.tilt_evaluator.specs.Evaluate.{IsNear};
ghost use Rattle.tilt_core.specs.Meaning.{body_of, definition_of, meaning, sources};

use crate::rows::row_mark;
use crate::tick::{follows, lies_in};
use tilt_core::{Def, Tree};
use tilt_stream::Rows;

/// Whether a source has a mark at the tick.
#[cycle(marks)]
pub fn source_mark(inputs: &[Rows], defs: &[Def], source: u32, tick: i128) -> bool
    requires few { length defs.now ≤ 2 ^ 32 }
    requires near { IsNear (2 ^ 65 * length defs.now) tick }
    ensures { result ≡ (meaning inputs.now defs.now source).mark tick }
{
    let source = source as usize;
    if source < inputs.len() {
        return row_mark(inputs[source].as_slice(), tick);
    }
    let place = source - inputs.len();
    if place < defs.len() {
        return definition_mark(inputs, &defs[..place], &defs[place], tick);
    }
    false
}

// Whether a definition over the sources has a mark at the tick.
#[cycle(marks)]
fn definition_mark(inputs: &[Rows], defs: &[Def], def: &Def, tick: i128) -> bool
    requires few { length defs.now < 2 ^ 32 }
    requires near { IsNear (2 ^ 65 * (length defs.now + 1)) tick }
    ensures { result ≡ (definition_of (sources inputs.now defs.now) def.now).mark tick }
{
    match def.over {
        None => grid_mark(inputs, defs, def, tick),
        Some(span) => {
            follows(span.start, tick)
                || follows(span.end, tick)
                || (lies_in(span, tick) && grid_mark(inputs, defs, def, tick))
        }
    }
}

// The same, before the definition is restricted to its span.
#[cycle(marks)]
fn grid_mark(inputs: &[Rows], defs: &[Def], def: &Def, tick: i128) -> bool
    requires few { length defs.now < 2 ^ 32 }
    requires near { IsNear (2 ^ 65 * (length defs.now + 1)) tick }
    ensures { result ≡ (on_grid def.now.grid (body_of (sources inputs.now defs.now) def.now.body)).mark tick }
{
    let grid = def.grid;
    grid.is_point(tick - 1)
        && some_mark(
            inputs,
            defs,
            &def.body,
            tick - 1,
            grid.period.unsigned_abs(),
        )
}

// Whether an expression over the sources has a mark at one of so many ticks after the tick.
#[cycle(marks)]
fn some_mark(inputs: &[Rows], defs: &[Def], body: &Tree, tick: i128, count: u64) -> bool
    requires few { length defs.now < 2 ^ 32 }
    requires near { IsNear (2 ^ 65 * length defs.now + 2 ^ 64 + count) tick }
    ensures { result ≡ some_mark (body_of (sources inputs.now defs.now) (tree_of body.now)) tick count }
{
    for behind in 0..count {
        if body_mark(inputs, defs, body, tick + 1 + i128::from(behind)) {
            return true;
        }
    }
    false
}

// Whether an expression over the sources has a mark at the tick.
#[cycle(marks)]
fn body_mark(inputs: &[Rows], defs: &[Def], body: &Tree, tick: i128) -> bool
    requires few { length defs.now < 2 ^ 32 }
    requires near { IsNear (2 ^ 65 * length defs.now + 2 ^ 64) tick }
    ensures { result ≡ (body_of (sources inputs.now defs.now) (tree_of body.now)).mark tick }
{
    match body {
        Tree::Const(_) => false,
        Tree::Read { source, offset } => {
            source_mark(inputs, defs, *source, tick + i128::from(*offset))
        }
        Tree::Reduce {
            source,
            from,
            to,
            ..
        } => {
            source_mark(inputs, defs, *source, tick + i128::from(*to))
                || source_mark(inputs, defs, *source, tick + i128::from(*from) + 1)
        }
        Tree::One(_, a) => body_mark(inputs, defs, a, tick),
        Tree::Two(_, a, b) => {
            body_mark(inputs, defs, a, tick) || body_mark(inputs, defs, b, tick)
        }
        Tree::If(c, a, b) => {
            body_mark(inputs, defs, c, tick)
                || body_mark(inputs, defs, a, tick)
                || body_mark(inputs, defs, b, tick)
        }
    }
}
