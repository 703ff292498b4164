// Trees moved by a number of ticks.
ghost use Rattle.std.specs.Prelude.{◌≡◌, IfOk};
ghost use Rattle.tilt_base.specs.Offset.{IsOffset};
ghost use Rattle.tilt_fuse.specs.FusedTree.{fused_tree_of};
ghost use Rattle.tilt_fuse.specs.Plan.{moved};
ghost use Rattle.tilt_fuse.specs.Trees.{IsNear};

use crate::fused::Fused;
use std::alloc::{AllocError as OutOfMemory, Global};

/// A tree `by` ticks later: each port and each window is moved. A map, which has neither, stays as it is.
pub fn moved(alloc: Global, tree: &Fused, by: i64) -> Result<Fused, OutOfMemory>
    requires tree { IsNear (fused_tree_of tree.now) }
    requires by { IsOffset by }
    ensures { IfOk result (λ made. fused_tree_of made ≡ moved by (fused_tree_of tree.now)) }
{
    Ok(match tree {
        Fused::Const(number) => Fused::Const(*number),
        Fused::Port { source, offset } => Fused::Port {
            source: *source,
            offset: *offset + by,
        },
        Fused::Win {
            reducer,
            source,
            from,
            to,
            map,
        } => Fused::Win {
            reducer: *reducer,
            source: *source,
            from: *from + by,
            to: *to + by,
            map: match map {
                None => None,
                Some(map) => Some(Box::new(alloc, moved(alloc, map, 0)?)?),
            },
        },
        Fused::Argument => Fused::Argument,
        Fused::One(op, a) => Fused::One(*op, Box::new(alloc, moved(alloc, a, by)?)?),
        Fused::Two(op, a, b) => {
            let a = Box::new(alloc, moved(alloc, a, by)?)?;
            let b = Box::new(alloc, moved(alloc, b, by)?)?;
            Fused::Two(*op, a, b)
        }
        Fused::If(c, a, b) => {
            let c = Box::new(alloc, moved(alloc, c, by)?)?;
            let a = Box::new(alloc, moved(alloc, a, by)?)?;
            let b = Box::new(alloc, moved(alloc, b, by)?)?;
            Fused::If(c, a, b)
        }
    })
}
