// Which sources are used: the last definition, and what a used one names.
ghost use Rattle.std.specs.Prelude.{◌≡◌, ◌+◌, ◌≤◌, ◌<◌, ◌∷◌, ◌||◌, ℕ, suc, length, IfOk, replicate, get_or, false};
ghost use Rattle.tilt_core.specs.Core.{AreDefinitions, ReadsBelow};
ghost use Rattle.tilt_core.specs.CoreTree.{tree_of};
ghost use Rattle.tilt_core.specs.Needs.{needs};
ghost use Rattle.tilt_fuse.specs.Plan.{are_none};
ghost use Rattle.tilt_fuse.specs.Used.{AreUsed, names};

use std::alloc::{AllocError as OutOfMemory, Global};
use tilt_core::{Def, Tree};

/// Whether each source is used, the inputs first.
pub fn used_of(alloc: Global, inputs: usize, defs: &[Def]) -> Result<Vec<bool>, OutOfMemory>
    requires few { inputs + length defs.now ≤ 256 }
    requires definitions { AreDefinitions inputs defs.now }
    ensures { IfOk result (λ used. AreUsed used.items (needs inputs defs.now)) }
{
    let mut used = unused(alloc, inputs + defs.len())?;
    for done in 0..defs.len() {
        let place = defs.len() - 1 - done;
        use_before(&mut used, inputs + place, &defs[place], &defs[place + 1..]);
    }
    Ok(used)
}

// So many sources, none of which is used.
fn unused(alloc: Global, count: usize) -> Result<Vec<bool>, OutOfMemory>
    ensures { IfOk result (λ used. used.items ≡ replicate count false) }
{
    vec![in alloc; false; count]
}

// The definition of a number is used, or it isn't. If it is used, it uses what it names.
fn use_before(used: &mut Vec<bool>, number: usize, def: &Def, behind: &[Def])
    requires numbered { number < length used.old.items }
    requires reads { ReadsBelow number def.now.body }
    requires so_far { AreUsed used.old.items (needs (suc number) behind.now) }
    ensures { AreUsed used.new.items (needs number (def.now ∷ behind.now)) }
{
    if is_used(used, number, behind) {
        used[number] = true;
        use_named(used, &def.body);
    }
}

// Whether the definition of a number is used: it is the last one, or one of those after it uses it.
fn is_used(used: &Vec<bool>, number: usize, behind: &[Def]) -> bool
    requires { number < length used.now.items }
    ensures { result ≡ (are_none behind.now || get_or used.now.items number false) }
{
    behind.is_empty() || used[number]
}

// Each source that an expression names is used.
fn use_named(used: &mut Vec<bool>, body: &Tree)
    requires { ReadsBelow (length used.old.items) (tree_of body.now) }
    ensures many { length used.new.items ≡ length used.old.items }
    ensures named { (source : ℕ) → source < length used.old.items
        → get_or used.new.items source false ≡ (get_or used.old.items source false || names (tree_of body.now) source) }
{
    match body {
        Tree::Const(_) => {}
        Tree::Read { source, .. } => used[*source as usize] = true,
        Tree::Reduce { source, .. } => used[*source as usize] = true,
        Tree::One(_, a) => use_named(used, a),
        Tree::Two(_, a, b) => {
            use_named(used, a);
            use_named(used, b);
        }
        Tree::If(c, a, b) => {
            use_named(used, c);
            use_named(used, a);
            use_named(used, b);
        }
    }
}
