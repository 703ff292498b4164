// The blocks of the maps of an expression's windows.
ghost use Rattle.std.specs.Prelude.{◌≡◌, ◌^◌, ◌≤◌, ◌++◌, [], ◌∷◌, map, IfOk, OnOk};
ghost use Rattle.std.specs.List.{AllByRecursion};
ghost use Rattle.tilt_fuse.specs.FusedTree.{fused_tree_of};
ghost use Rattle.tilt_fuse.specs.Plan.{nodes};
ghost use Rattle.tilt_fuse.specs.Trees.{HasMaps, IsMap};
ghost use Rattle.tilt_lower.specs.Constants.{BlockFits};
ghost use Rattle.tilt_lower.specs.Lowering.{block_of, maps_of};

use crate::buffers::Buffers;
use crate::instructions::block_of;
use std::alloc::{AllocError as OutOfMemory, Global};
use tilt_code::Instr;
use tilt_fuse::Fused;

/// The blocks of the maps of an expression, in the order of their windows.
pub fn maps_of(alloc: Global, tree: &Fused) -> Result<Vec<Vec<Instr>>, OutOfMemory>
    requires small { nodes (fused_tree_of tree.now) ≤ 2 ^ 16 }
    requires maps { HasMaps (fused_tree_of tree.now) }
    ensures maps { IfOk result (λ made. map (λ m. m.items) made.items ≡ maps_of (fused_tree_of tree.now)) }
    ensures fit { IfOk result (λ made. AllByRecursion BlockFits (map (λ m. m.items) made.items)) }
{
    let mut made = Vec::new(alloc);
    push_maps(alloc, &mut made, tree)?;
    Ok(made)
}

// Adds the blocks of the maps of an expression.
fn push_maps(alloc: Global, made: &mut Vec<Vec<Instr>>, tree: &Fused) -> Result<(), OutOfMemory>
    requires small { nodes (fused_tree_of tree.now) ≤ 2 ^ 16 }
    requires maps { HasMaps (fused_tree_of tree.now) }
    ensures maps { OnOk result (map (λ m. m.items) made.new.items
        ≡ map (λ m. m.items) made.old.items ++ maps_of (fused_tree_of tree.now)) }
    ensures fit { OnOk result (AllByRecursion BlockFits (map (λ m. m.items) made.old.items)
        → AllByRecursion BlockFits (map (λ m. m.items) made.new.items)) }
{
    match tree {
        Fused::Const(_) | Fused::Port { .. } | Fused::Argument => {}
        Fused::Win { map, .. } => {
            if let Some(map) = map {
                push_map(alloc, made, map)?;
            }
        }
        Fused::One(_, a) => push_maps(alloc, made, a)?,
        Fused::Two(_, a, b) => {
            push_maps(alloc, made, a)?;
            push_maps(alloc, made, b)?;
        }
        Fused::If(c, a, b) => {
            push_maps(alloc, made, c)?;
            push_maps(alloc, made, a)?;
            push_maps(alloc, made, b)?;
        }
    }
    Ok(())
}

// Adds the block of a map, which reads no buffer.
fn push_map(alloc: Global, made: &mut Vec<Vec<Instr>>, tree: &Fused) -> Result<(), OutOfMemory>
    requires small { nodes (fused_tree_of tree.now) ≤ 2 ^ 16 }
    requires is_map { IsMap (fused_tree_of tree.now) }
    ensures maps { OnOk result (map (λ m. m.items) made.new.items
        ≡ map (λ m. m.items) made.old.items ++ block_of (λ source. source) 0 0 (fused_tree_of tree.now) ∷ []) }
    ensures fit { OnOk result (AllByRecursion BlockFits (map (λ m. m.items) made.old.items)
        → AllByRecursion BlockFits (map (λ m. m.items) made.new.items)) }
{
    let none = Buffers {
        inputs: 0,
        loops: &[],
    };
    made.push(block_of(alloc, tree, &none)?)?;
    Ok(())
}
