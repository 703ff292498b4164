// The horizon of a query, computed from those of its inputs. Each horizon is a tick, or none if a source is known for ever. The offset
// of a reading may be any number of 64 bits, so horizons have 128 bits here.
ghost use Rattle.std.specs.Prelude.{◌≡◌, ◌+◌, ◌^◌, ◌≤◌, ◌+ℤ◌, ◌<ℤ◌, ◌≤ℤ◌, ◌∷◌, ◌++◌, ℕ, [], pos, neg_ℤ, length, map};
ghost use Rattle.std.specs.Prelude.{Some, IfOk, OnOk};
ghost use Rattle.std.specs.List.{AllByRecursion};
ghost use Rattle.tilt_base.specs.Grid.{floor};
ghost use Rattle.tilt_base.specs.declared.limits.TheConstants.{PERIOD};
ghost use Rattle.tilt_core.specs.Core.{emitted_number};
ghost use Rattle.tilt_core.specs.CoreTree.{tree_of};
ghost use Rattle.tilt_feed.specs.Horizon.{Until, body_horizon, clipped, definition_horizon, earlier, earlier_by, grid_horizon};
ghost use Rattle.tilt_feed.specs.Horizon.{horizon_of, output_domain, over_horizon, with_horizons};
ghost use Rattle.tilt_engine.specs.CodeHorizon.{horizon_by};
ghost use Rattle.tilt_live.specs.Ticks.{IsWithin, drift};

use std::alloc::{AllocError as OutOfMemory, Global};
use tilt_base::{Grid, Span};
use tilt_core::{Core, Def, Tree};

/// Up to which tick the output of a query is known, over inputs that are known up to these ticks (none: for ever). `OutOfMemory` comes
/// if memory runs out, and for no other reason.
pub(crate) fn query_horizon(
    alloc: Global,
    core: &Core,
    inputs: &[Option<i64>],
) -> Result<i64, OutOfMemory>
    requires each { length inputs.now ≡ length core.now.inputs }
    ensures value { IfOk result (λ tick. tick ≡ clipped (output_domain core.now).end
        (horizon_of (with_horizons (map horizon_by inputs.now) core.now.defs) (emitted_number core.now))) }
{
    let mut horizons = widened(alloc, inputs)?;
    add_definitions(&mut horizons, core.defs())?;
    let horizon = horizon_of(&horizons, core.emitted());
    Ok(clipped(core.domain().end, horizon))
}

// The same horizons in 128 bits.
fn widened(alloc: Global, inputs: &[Option<i64>]) -> Result<Vec<Option<i128>>, OutOfMemory>
    ensures same { IfOk result (λ wide. wide.items ≡ inputs.now) }
    ensures near { IfOk result (λ wide. AllByRecursion (IsWithin (2 ^ 63)) wide.items) }
{
    let mut wide = Vec::new(alloc);
    for input in inputs {
        wide.push(widen(*input))?;
    }
    Ok(wide)
}

// The same horizon in 128 bits.
fn widen(horizon: Option<i64>) -> Option<i128>
    ensures same { result ≡ horizon }
    ensures near { IsWithin (2 ^ 63) result }
{
    Some(i128::from(horizon?))
}

// A horizon, at most a tick.
fn clipped(end: i64, horizon: Option<i128>) -> i64
    requires { IsWithin (2 ^ 62) horizon }
    ensures { result ≡ clipped end (horizon_by horizon) }
{
    match horizon {
        Some(last) => end.min(last as i64),
        None => end,
    }
}

// Adds the horizons of definitions to those of the sources before them.
fn add_definitions(horizons: &mut Vec<Option<i128>>, defs: &[Def]) -> Result<(), OutOfMemory>
    requires few { length horizons.old.items + length defs.now ≤ 256 }
    requires near { AllByRecursion (IsWithin (drift (length horizons.old.items))) horizons.old.items }
    ensures value { OnOk result (map horizon_by horizons.new.items
        ≡ with_horizons (map horizon_by horizons.old.items) defs.now) }
{
    for def in defs {
        add_definition(horizons, def)?;
    }
    Ok(())
}

// Adds the horizon of a definition to those of the sources before it.
fn add_definition(horizons: &mut Vec<Option<i128>>, def: &Def) -> Result<(), OutOfMemory>
    requires few { length horizons.old.items ≤ 256 }
    requires near { AllByRecursion (IsWithin (drift (length horizons.old.items))) horizons.old.items }
    ensures value { OnOk result (map horizon_by horizons.new.items ≡ map horizon_by horizons.old.items
        ++ definition_horizon (map horizon_by horizons.old.items) def.now ∷ []) }
    ensures one_more { OnOk result (length horizons.new.items ≡ 1 + length horizons.old.items) }
    ensures still_near { OnOk result (AllByRecursion (IsWithin (drift (length horizons.new.items))) horizons.new.items) }
{
    let horizon = definition_horizon(horizons, def);
    horizons.push(horizon)?;
    Ok(())
}

// Up to where a definition is known, over the sources before it.
fn definition_horizon(horizons: &[Option<i128>], def: &Def) -> Option<i128>
    requires few { length horizons.now ≤ 256 }
    requires near { AllByRecursion (IsWithin (drift (length horizons.now))) horizons.now }
    ensures value { horizon_by result ≡ definition_horizon (map horizon_by horizons.now) def.now }
    ensures near { IsWithin (drift (1 + length horizons.now)) result }
{
    let body = body_horizon(horizons, &def.body);
    over_horizon(def.over, grid_horizon(def.grid, body))
}

// A horizon, restricted to a span if there is one: for ever if the horizon isn't below its end, and at least up to its start.
fn over_horizon(over: Option<Span>, horizon: Option<i128>) -> Option<i128>
    ensures value { horizon_by result ≡ over_horizon over (horizon_by horizon) }
    ensures near { (limit : ℕ) → 2 ^ 63 ≤ limit → IsWithin limit horizon → IsWithin limit result }
{
    let last = horizon?;
    match over {
        None => Some(last),
        Some(span) => within_span(span, last),
    }
}

// A horizon that is a tick, restricted to a span.
fn within_span(span: Span, last: i128) -> Option<i128>
    ensures value { horizon_by result ≡ over_horizon (Some span) (Until last) }
    ensures near { (limit : ℕ) → 2 ^ 63 ≤ limit → IsWithin limit (Some last) → IsWithin limit result }
{
    if i128::from(span.end) <= last {
        None
    } else {
        Some(last.max(i128::from(span.start)))
    }
}

// A horizon, taken on a grid: up to the last grid point that isn't above the horizon.
fn grid_horizon(grid: Grid, horizon: Option<i128>) -> Option<i128>
    requires { IsWithin (2 ^ 80) horizon }
    ensures value { horizon_by result ≡ grid_horizon grid (horizon_by horizon) }
    ensures near { (limit : ℕ) → IsWithin limit horizon → IsWithin (limit + 2 ^ 63) result }
{
    Some(floor(grid, horizon?))
}

// The largest grid point that isn't above the tick.
fn floor(grid: Grid, tick: i128) -> i128
    requires low { neg_ℤ (pos (2 ^ 80)) ≤ℤ tick }
    requires high { tick ≤ℤ pos (2 ^ 80) }
    ensures value { result ≡ floor grid tick }
    ensures not_above { result ≤ℤ tick }
    ensures near { tick <ℤ (result +ℤ PERIOD) }
{
    tick - (tick - i128::from(grid.offset)).rem_euclid(i128::from(grid.period))
}

// Up to where what an expression reads is known.
fn body_horizon(horizons: &[Option<i128>], body: &Tree) -> Option<i128>
    requires few { length horizons.now ≤ 256 }
    requires near { AllByRecursion (IsWithin (drift (length horizons.now))) horizons.now }
    ensures value { horizon_by result ≡ body_horizon (map horizon_by horizons.now) (tree_of body.now) }
    ensures near { IsWithin (drift (length horizons.now) + 2 ^ 63) result }
{
    match body {
        Tree::Const(_) => None,
        Tree::Read { source, offset } => earlier_by(horizon_of(horizons, *source), *offset),
        Tree::Reduce { source, to, .. } => earlier_by(horizon_of(horizons, *source), *to),
        Tree::One(_, a) => body_horizon(horizons, a),
        Tree::Two(_, a, b) => earlier(body_horizon(horizons, a), body_horizon(horizons, b)),
        Tree::If(c, a, b) => {
            let choice = earlier(body_horizon(horizons, a), body_horizon(horizons, b));
            earlier(body_horizon(horizons, c), choice)
        }
    }
}

// Up to where the source of a number is known; for ever if there is no such source.
fn horizon_of(horizons: &[Option<i128>], source: u32) -> Option<i128>
    ensures value { horizon_by result ≡ horizon_of (map horizon_by horizons.now) source }
    ensures near { (limit : ℕ) → AllByRecursion (IsWithin limit) horizons.now → IsWithin limit result }
{
    match horizons.get(source as usize) {
        Some(horizon) => *horizon,
        None => None,
    }
}

// The earlier of two horizons.
fn earlier(first: Option<i128>, second: Option<i128>) -> Option<i128>
    ensures value { horizon_by result ≡ earlier (horizon_by first) (horizon_by second) }
    ensures near { (limit : ℕ) → IsWithin limit first → IsWithin limit second → IsWithin limit result }
{
    match (first, second) {
        (Some(first), Some(second)) => Some(first.min(second)),
        (Some(first), None) => Some(first),
        (None, second) => second,
    }
}

// A horizon, earlier by an offset.
fn earlier_by(horizon: Option<i128>, offset: i64) -> Option<i128>
    requires { IsWithin (2 ^ 80) horizon }
    ensures value { horizon_by result ≡ earlier_by (horizon_by horizon) offset }
    ensures near { (limit : ℕ) → IsWithin limit horizon → IsWithin (limit + 2 ^ 63) result }
{
    Some(horizon? - i128::from(offset))
}
