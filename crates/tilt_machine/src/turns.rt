// The turns of a loop, one after the other.
ghost use Rattle.std.specs.Prelude.{◌≡◌, length, map, IfOk};
ghost use Rattle.tilt_code.specs.Turn.{turns};
ghost use Rattle.tilt_machine.specs.Lists.{lists_of};
ghost use Rattle.tilt_stream.specs.Stream.{stream_of};
ghost use Rattle.tilt_turn.specs.Ready.{IsReady};

use crate::made_so_far::MadeSoFar;
use std::alloc::{AllocError as OutOfMemory, Global};
use tilt_code::Loop;
use tilt_stream::SnapList;
use tilt_turn::LoopState;

// All turns of a loop over the buffers before its own: the snapshots of its buffer.
pub(crate) fn turns(
    alloc: Global,
    each: &Loop,
    buffers: &MadeSoFar<'_>,
) -> Result<SnapList, OutOfMemory>
    requires ready { IsReady (length (lists_of buffers.now)) each.now }
    ensures { IfOk result (λ list. list ≡ turns (map stream_of (lists_of buffers.now)) each.now) }
{
    let mut list = SnapList::new(alloc);
    let mut state = LoopState::new(alloc, each)?;
    let mut start = each.lo;
    while start < each.hi {
        let snap = state.turn(buffers, each, start)?;
        list.push(snap)?;
        start = snap.end;
    }
    Ok(list)
}
