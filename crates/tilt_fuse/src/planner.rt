// The loops of a query.
ghost use Rattle.std.specs.Prelude.{◌≡◌, ◌+◌, ◌<◌, true, suc, length, replicate, get_or, None, is_some, IfOk, OnOk, IsOk};
ghost use Rattle.std.specs.List.{slice_index_or};
ghost use Rattle.tilt_bounds.specs.Margins.{margins_of};
ghost use Rattle.tilt_fuse.specs.Plan.{plan_of};
ghost use Rattle.tilt_fuse.specs.Streams.{MeanTheirBodies};
ghost use Rattle.tilt_fuse.specs.Trees.{IsKnown, IsPlanned};
ghost use Rattle.tilt_core.specs.Needs.{needs_from};

use crate::fusion::fused;
use crate::loop_list::LoopList;
use crate::merged::Merged;
use crate::merging::is_merged;
use crate::progress::Progress;
use crate::query::Query;
use crate::usage::used_of;
use std::alloc::{AllocError as OutOfMemory, Global};
use tilt_core::{Core, Def};

/// The loops of a query whose reach is within the limit: its used definitions that aren't merged into their users, in
/// order. Without fusion nothing is merged.
pub fn plan(alloc: Global, core: &Core, fuse: bool) -> Result<LoopList, OutOfMemory>
    requires reaches { IsOk (margins_of core.now) }
    ensures plan { IfOk result (λ list. list.loops.items ≡ plan_of core.now fuse) }
    ensures means { IfOk result (λ list. MeanTheirBodies core.now list.loops.items) }
{
    let inputs = core.inputs().len();
    let defs = core.defs();
    let used = used_of(alloc, inputs, defs)?;
    let query = Query {
        inputs,
        defs,
        used: &used,
        fuse,
    };
    let mut progress = Progress {
        merged: unmerged(alloc, inputs)?,
        loops: Vec::new(alloc),
    };
    for place in 0..defs.len() {
        plan_definition(alloc, &query, place, &mut progress)?;
    }
    Ok(LoopList {
        loops: progress.loops,
    })
}

// So many sources, none of which is merged.
fn unmerged(alloc: Global, count: usize) -> Result<Vec<Merged>, OutOfMemory>
    ensures { IfOk result (λ merged. merged.items ≡ replicate count None) }
{
    let mut merged = Vec::new(alloc);
    for _ in 0..count {
        merged.push(Merged { tree: None })?;
    }
    Ok(merged)
}

// Continues with the definition at a place: it isn't used, it is merged, or it has a loop.
fn plan_definition(
    alloc: Global,
    query: &Query,
    place: usize,
    progress: &mut Progress,
) -> Result<(), OutOfMemory>
    requires known { IsKnown query.now.inputs query.now.defs.now query.now.used.now }
    requires place { place < length query.now.defs.now }
    requires so_far { IsPlanned query.now.fuse query.now.inputs query.now.defs.now place
        progress.old.merged.items progress.old.loops.items }
    ensures { OnOk result (IsPlanned query.now.fuse query.now.inputs query.now.defs.now (suc place)
        progress.new.merged.items progress.new.loops.items) }
{
    if !query.used[query.inputs + place] {
        progress.skip()?;
        return Ok(());
    }
    plan_used(alloc, query, place, &query.defs[place], progress)
}

// The same by a used definition.
fn plan_used(
    alloc: Global,
    query: &Query,
    place: usize,
    def: &Def,
    progress: &mut Progress,
) -> Result<(), OutOfMemory>
    requires known { IsKnown query.now.inputs query.now.defs.now query.now.used.now }
    requires place { place < length query.now.defs.now }
    requires definition { def.now ≡ slice_index_or query.now.defs.now place def.now }
    requires is_used { is_some (get_or (needs_from query.now.inputs query.now.defs.now) place None) ≡ true }
    requires so_far { IsPlanned query.now.fuse query.now.inputs query.now.defs.now place
        progress.old.merged.items progress.old.loops.items }
    ensures { OnOk result (IsPlanned query.now.fuse query.now.inputs query.now.defs.now (suc place)
        progress.new.merged.items progress.new.loops.items) }
{
    let tree = fused(alloc, &progress.merged, &def.body)?;
    if is_merged(query, place, def, &tree) {
        progress.merge(tree)?;
        return Ok(());
    }
    progress.add_loop(place, tree)?;
    Ok(())
}
