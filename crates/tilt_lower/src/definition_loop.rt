// The loop of a definition.
ghost use Rattle.std.specs.Prelude.{◌≡◌, ◌+◌, ◌*◌, ◌≤◌, length, IfOk};
ghost use Rattle.tilt_fuse.specs.FusedTree.{fused_tree_of};
ghost use Rattle.tilt_fuse.specs.Plan.{nodes};
ghost use Rattle.tilt_fuse.specs.Trees.{HasMaps};
ghost use Rattle.tilt_lower.specs.Constants.{ConstantsFit};
ghost use Rattle.tilt_lower.specs.Lowering.{buffer_of, loop_on, null_on};

use crate::buffers::Buffers;
use crate::instructions::block_of;
use crate::map_blocks::maps_of;
use std::alloc::{AllocError as OutOfMemory, Global};
use tilt_base::Grid;
use tilt_bounds::LoopSpan;
use tilt_code::{Instr, Loop};
use tilt_core::Def;
use tilt_fuse::Fused;

/// The loop of a definition with this expression, on this stretch; null on all of it if the stretch is marked as empty.
pub fn loop_on(
    alloc: Global,
    span: LoopSpan,
    buffers: &Buffers,
    def: &Def,
    tree: &Fused,
) -> Result<Loop, OutOfMemory>
    requires small { nodes (fused_tree_of tree.now) ≤ 65 * 256 }
    requires maps { HasMaps (fused_tree_of tree.now) }
    requires buffers { buffers.now.inputs + length buffers.now.loops.now ≤ 256 }
    ensures made { IfOk result (λ made. made
        ≡ loop_on span (buffer_of buffers.now.inputs buffers.now.loops.now) def.now (fused_tree_of tree.now)) }
    ensures fit { IfOk result (λ made. ConstantsFit made) }
{
    if span.empty {
        return null_loop(alloc, span.lo, span.hi);
    }
    let maps = maps_of(alloc, tree)?;
    let body = block_of(alloc, tree, buffers)?;
    Ok(Loop {
        lo: span.lo,
        hi: span.hi,
        grid: def.grid,
        maps,
        body,
    })
}

// The loop that is null on all of a stretch.
fn null_loop(alloc: Global, lo: i64, hi: i64) -> Result<Loop, OutOfMemory>
    ensures { IfOk result (λ made. made ≡ null_on lo hi) }
{
    let mut body = Vec::new(alloc);
    body.push(Instr::Null)?;
    Ok(Loop {
        lo,
        hi,
        grid: Grid {
            period: 1,
            offset: 0,
        },
        maps: Vec::new(alloc),
        body,
    })
}
