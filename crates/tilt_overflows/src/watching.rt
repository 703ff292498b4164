// The query that watches another one.
ghost use Rattle.std.specs.Prelude.{◌≡◌, ◌++◌, [], ◌∷◌, ◌+◌, ◌^◌, ◌<◌, ◌≤◌, ◌≤ℤ◌, pos, neg_ℤ, Ok, Some, IfOk, OnOk, MatchResult, map};
ghost use Rattle.std.specs.Int.{int_max, int_min};
ghost use Rattle.tilt_base.specs.Expression.{Leaf};
ghost use Rattle.tilt_base.specs.declared.limits.TheConstants.{T};
ghost use Rattle.tilt_bounds.specs.Margins.{margins_of};
ghost use Rattle.tilt_core.specs.Core.{IsStretch};
ghost use Rattle.tilt_core.specs.CoreTree.{Read, nodes, tree_of};
ghost use Rattle.tilt_overflows.specs.Watching.{AreSmall, GivesWatching, emitted_watch, some_of, watch, widened};
ghost use Rattle.tilt_overflows.specs.declared.fault.WatchError.TheVariants.{TooLarge};

use crate::fault::WatchError;
use crate::leaves::leaves;
use crate::names::{copy_names, watching_names};
use crate::tree::{budget_after, copy, two};
use std::alloc::{AllocError as OutOfMemory, Global};
use tilt_base::{Grid, Op2, Span, T};
use tilt_bounds::Margins;
use tilt_core::{Core, Def, Tree};

// The most nodes that an expression may have, and the most sources that a query may have.
const MOST: u32 = 256;

/// The core of the query that watches a query, which has these margins. It emits 1 at the ticks at which a result of the query left
/// 64 bits. `TooLarge` comes exactly if the limits of a query don't allow it.
pub fn watch_query(alloc: Global, core: &Core, margins: &Margins) -> Result<Core, WatchError>
    requires { margins_of core.now ≡ Ok margins.now }
    ensures { GivesWatching core.now result }
{
    let count = core.defs().len();
    if core.inputs().len() + count + count >= MOST as usize {
        return Err(WatchError::TooLarge);
    }
    let mut defs = copy_definitions(alloc, core.defs())?;
    push_watches(alloc, &mut defs, core.defs())?;
    push_one(&mut defs, emitted_watch(alloc, core, margins)?)?;
    let names = watching_names(alloc, core.inputs(), core.names(), count as u32 + 1)?;
    let inputs = copy_names(alloc, core.inputs())?;
    Ok(Core::new(inputs, names, defs))
}

// The definitions in a list of their own.
fn copy_definitions(alloc: Global, defs: &[Def]) -> Result<Vec<Def>, OutOfMemory>
    ensures { IfOk result (λ all. all.items ≡ defs.now) }
{
    let mut all = Vec::new(alloc);
    for def in defs {
        all.push(copy_definition(alloc, def)?)?;
    }
    Ok(all)
}

// An equal definition.
fn copy_definition(alloc: Global, def: &Def) -> Result<Def, OutOfMemory>
    ensures { IfOk result (λ made. made ≡ def.now) }
{
    Ok(Def {
        body: copy(alloc, &def.body)?,
        over: def.over,
        grid: def.grid,
    })
}

// Adds the watch of each definition.
fn push_watches(alloc: Global, all: &mut Vec<Def>, defs: &[Def]) -> Result<(), WatchError>
    ensures watches { OnOk result (all.new.items ≡ all.old.items ++ map watch defs.now) }
    ensures small { MatchResult result
        (λ _. AreSmall (map watch defs.now))
        (λ fault. fault ≡ TooLarge → ¬ (AreSmall (map watch defs.now))) }
{
    for def in defs {
        let watch = watch_of(alloc, def)?;
        push_one(all, watch)?;
    }
    Ok(())
}

// Adds a definition.
fn push_one(all: &mut Vec<Def>, def: Def) -> Result<(), OutOfMemory>
    ensures { OnOk result (all.new.items ≡ all.old.items ++ def ∷ []) }
{
    all.push(def)?;
    Ok(())
}

// The watch of a definition, if it isn't too large.
fn watch_of(alloc: Global, def: &Def) -> Result<Def, WatchError>
    ensures watch { IfOk result (λ made. made ≡ watch def.now) }
    ensures small { MatchResult result
        (λ _. nodes (watch def.now).body ≤ 256)
        (λ fault. fault ≡ TooLarge → 256 < nodes (watch def.now).body) }
{
    let body = two(alloc, Op2::When, Tree::Const(1), leaves(alloc, &def.body)?)?;
    if budget_after(&body, MOST).is_none() {
        return Err(WatchError::TooLarge);
    }
    Ok(Def {
        body,
        over: def.over,
        grid: def.grid,
    })
}

// What the watching query emits.
fn emitted_watch(alloc: Global, core: &Core, margins: &Margins) -> Result<Def, OutOfMemory>
    requires { margins_of core.now ≡ Ok margins.now }
    ensures { IfOk result (λ made. made ≡ emitted_watch core.now) }
{
    let first = core.inputs().len() + core.defs().len();
    let body = some_of(alloc, first as u32, core.names().len() as u32)?;
    Ok(Def {
        body,
        over: Some(widened(core.domain(), margins)),
        grid: Grid {
            period: 1,
            offset: 0,
        },
    })
}

// The span, widened by what the margins say.
fn widened(span: Span, margins: &Margins) -> Span
    requires stretch { IsStretch (Some span) }
    requires back { pos 0 ≤ℤ margins.now.back }
    requires ahead { pos 0 ≤ℤ margins.now.ahead }
    ensures { result ≡ widened (record { back = margins.now.back; ahead = margins.now.ahead }) span }
{
    clamped(span.start - margins.back(), span.end + margins.ahead())
}

// The span with these ends, as far as the limits of a span allow.
fn clamped(start: i64, end: i64) -> Span
    ensures { result ≡ record { start = int_max (neg_ℤ T) start; end = int_min T end } }
{
    Span {
        start: start.max(-T),
        end: end.min(T),
    }
}

// The first of some sources that isn't null.
fn some_of(alloc: Global, first: u32, more: u32) -> Result<Tree, OutOfMemory>
    requires { first + more < 2 ^ 32 }
    ensures { IfOk result (λ tree. tree_of tree ≡ some_of first more) }
{
    let mut tree = reading(first);
    for before in 0..more {
        tree = two(alloc, Op2::IfNull, tree, reading(first + (before + 1)))?;
    }
    Ok(tree)
}

// A source at the tick itself.
fn reading(source: u32) -> Tree
    ensures { tree_of result ≡ Leaf (Read source (pos 0)) }
{
    Tree::Read { source, offset: 0 }
}
