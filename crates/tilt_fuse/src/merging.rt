// Whether a definition is merged into its users.
ghost use Rattle.std.specs.Prelude.{◌≡◌, ◌+◌, ◌*◌, ◌<◌, ◌≤◌, ◌&&◌, ◌||◌, not, suc, pos, length, drop, is_some};
ghost use Rattle.std.specs.Ordering.{int_eq};
ghost use Rattle.tilt_fuse.specs.FusedTree.{fused_tree_of};
ghost use Rattle.tilt_fuse.specs.Plan.{are_none, has_window_on, is_merged, is_windowed, nodes, only_reading};
ghost use Rattle.tilt_fuse.specs.Trees.{IsKnown};
ghost use Rattle.tilt_core.specs.CoreTree.{tree_of};
ghost use Rattle.tilt_core.specs.Needs.{needs_from};

use crate::fused::Fused;
use crate::query::Query;
use crate::reading::only_reading;
use tilt_core::{Def, Tree};

/// The maximum number of nodes of a merged definition.
const MOST: u32 = 64;

/// Whether the used definition at a place, which has this tree, is merged.
pub fn is_merged(query: &Query, place: usize, def: &Def, tree: &Fused) -> bool
    requires known { IsKnown query.now.inputs query.now.defs.now query.now.used.now }
    requires place { place < length query.now.defs.now }
    requires few { nodes (fused_tree_of tree.now) ≤ 65 * 256 }
    ensures { result ≡ (query.now.fuse && is_merged def.now (drop (suc place) query.now.defs.now)
        (drop (suc place) (needs_from query.now.inputs query.now.defs.now)) (query.now.inputs + place) (fused_tree_of tree.now)) }
{
    query.fuse && is_mergeable(query, place, def, tree)
}

// The same if definitions are merged at all.
fn is_mergeable(query: &Query, place: usize, def: &Def, tree: &Fused) -> bool
    requires known { IsKnown query.now.inputs query.now.defs.now query.now.used.now }
    requires place { place < length query.now.defs.now }
    requires few { nodes (fused_tree_of tree.now) ≤ 65 * 256 }
    ensures { result ≡ is_merged def.now (drop (suc place) query.now.defs.now)
        (drop (suc place) (needs_from query.now.inputs query.now.defs.now)) (query.now.inputs + place) (fused_tree_of tree.now) }
{
    may_merge(query, place, def) && nodes(tree) <= MOST && fits(query, place, tree)
}

// Whether the definition at a place isn't the last one, and has neither a span nor a period above 1.
fn may_merge(query: &Query, place: usize, def: &Def) -> bool
    requires place { place < length query.now.defs.now }
    ensures { result ≡ (not (are_none (drop (suc place) query.now.defs.now)) && not (is_some def.now.over)
        && int_eq def.now.grid.period (pos 1)) }
{
    !is_last(query, place) && def.over.is_none() && def.grid.period == 1
}

// Whether the definition at a place is the last one.
fn is_last(query: &Query, place: usize) -> bool
    requires place { place < length query.now.defs.now }
    ensures { result ≡ are_none (drop (suc place) query.now.defs.now) }
{
    place + 1 == query.defs.len()
}

// Whether the definition at a place, which has this tree, has no windows on it, or is made from one reading.
fn fits(query: &Query, place: usize, tree: &Fused) -> bool
    requires known { IsKnown query.now.inputs query.now.defs.now query.now.used.now }
    requires place { place < length query.now.defs.now }
    ensures { result ≡ (not (is_windowed (drop (suc place) query.now.defs.now)
        (drop (suc place) (needs_from query.now.inputs query.now.defs.now)) (query.now.inputs + place))
        || is_some (only_reading (fused_tree_of tree.now))) }
{
    !is_windowed(query, place) || only_reading(tree).is_some()
}

// How many nodes a tree has.
fn nodes(tree: &Fused) -> u32
    requires { nodes (fused_tree_of tree.now) ≤ 65 * 256 }
    ensures { result ≡ nodes (fused_tree_of tree.now) }
{
    match tree {
        Fused::Const(_) | Fused::Port { .. } | Fused::Argument => 1,
        Fused::Win { map, .. } => match map {
            None => 1,
            Some(map) => 1 + nodes(map),
        },
        Fused::One(_, a) => 1 + nodes(a),
        Fused::Two(_, a, b) => 1 + nodes(a) + nodes(b),
        Fused::If(c, a, b) => 1 + nodes(c) + nodes(a) + nodes(b),
    }
}

// Whether a used definition after the one at a place has a window on it.
fn is_windowed(query: &Query, place: usize) -> bool
    requires known { IsKnown query.now.inputs query.now.defs.now query.now.used.now }
    requires place { place < length query.now.defs.now }
    ensures { result ≡ is_windowed (drop (suc place) query.now.defs.now)
        (drop (suc place) (needs_from query.now.inputs query.now.defs.now)) (query.now.inputs + place) }
{
    for later in place + 1..query.defs.len() {
        if puts_window_on(query, later, query.inputs + place) {
            return true;
        }
    }
    false
}

// Whether the definition at a place is used and has a window on a source.
fn puts_window_on(query: &Query, place: usize, number: usize) -> bool
    requires known { IsKnown query.now.inputs query.now.defs.now query.now.used.now }
    requires place { place < length query.now.defs.now }
    ensures { is_windowed (drop place query.now.defs.now) (drop place (needs_from query.now.inputs query.now.defs.now)) number
        ≡ (result || is_windowed (drop (suc place) query.now.defs.now)
        (drop (suc place) (needs_from query.now.inputs query.now.defs.now)) number) }
{
    let def = &query.defs[place];
    query.used[query.inputs + place] && has_window_on(&def.body, number)
}

// Whether an expression has a window on a source.
fn has_window_on(body: &Tree, number: usize) -> bool
    ensures { result ≡ has_window_on (tree_of body.now) number }
{
    match body {
        Tree::Const(_) | Tree::Read { .. } => false,
        Tree::Reduce { source, .. } => *source as usize == number,
        Tree::One(_, a) => has_window_on(a, number),
        Tree::Two(_, a, b) => has_window_on(a, number) || has_window_on(b, number),
        Tree::If(c, a, b) => has_window_on(c, number)
            || has_window_on(a, number)
            || has_window_on(b, number),
    }
}
