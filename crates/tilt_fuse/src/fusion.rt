// An expression over sources, as one over those that have buffers.
ghost use Rattle.std.specs.Prelude.{◌≡◌, length, IfOk, IfSome};
ghost use Rattle.tilt_base.specs.Offset.{IsOffset};
ghost use Rattle.tilt_fuse.specs.FusedTree.{fused_tree_of};
ghost use Rattle.tilt_fuse.specs.Plan.{fused, reading_of};
ghost use Rattle.tilt_fuse.specs.Trees.{AreNear, IsNear, IsNearBody};
ghost use Rattle.tilt_core.specs.Core.{ReadsBelow};
ghost use Rattle.tilt_core.specs.CoreTree.{tree_of};

use crate::fused::Fused;
use crate::merged::Merged;
use crate::shift::moved;
use crate::window::{Window, window_on};
use std::alloc::{AllocError as OutOfMemory, Global};
use tilt_core::Tree;

/// The expression with each reading of a merged source as that source's tree, moved.
pub fn fused(alloc: Global, merged: &[Merged], body: &Tree) -> Result<Fused, OutOfMemory>
    requires reads { ReadsBelow (length merged.now) (tree_of body.now) }
    requires merged { AreNear merged.now }
    requires near { IsNearBody (tree_of body.now) }
    ensures { IfOk result (λ tree. fused_tree_of tree ≡ fused merged.now (tree_of body.now)) }
{
    Ok(match body {
        Tree::Const(number) => Fused::Const(*number),
        Tree::Read { source, offset } => reading_of(
            alloc,
            &merged[*source as usize],
            *source,
            *offset,
        )?,
        Tree::Reduce {
            reducer,
            source,
            from,
            to,
        } => {
            let window = Window {
                reducer: *reducer,
                from: *from,
                to: *to,
            };
            window_on(alloc, &merged[*source as usize], window, *source)?
        }
        Tree::One(op, a) => Fused::One(*op, Box::new(alloc, fused(alloc, merged, a)?)?),
        Tree::Two(op, a, b) => {
            let a = Box::new(alloc, fused(alloc, merged, a)?)?;
            let b = Box::new(alloc, fused(alloc, merged, b)?)?;
            Fused::Two(*op, a, b)
        }
        Tree::If(c, a, b) => {
            let c = Box::new(alloc, fused(alloc, merged, c)?)?;
            let a = Box::new(alloc, fused(alloc, merged, a)?)?;
            let b = Box::new(alloc, fused(alloc, merged, b)?)?;
            Fused::If(c, a, b)
        }
    })
}

// The reading of a source at an offset.
fn reading_of(
    alloc: Global,
    merged: &Merged,
    source: u32,
    offset: i64,
) -> Result<Fused, OutOfMemory>
    requires merged { IfSome merged.now IsNear }
    requires offset { IsOffset offset }
    ensures { IfOk result (λ tree. fused_tree_of tree ≡ reading_of merged.now source offset) }
{
    match &merged.tree {
        None => Ok(Fused::Port { source, offset }),
        Some(tree) => moved(alloc, tree, offset),
    }
}
