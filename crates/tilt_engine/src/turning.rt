// The turns of an engine's loops.
ghost use Rattle.std.specs.Prelude.{◌≡◌, ◌<◌, ◌↔◌, List, suc, length, slice_get, Some, IsTrue, OnOk};
ghost use Rattle.tilt_engine.specs.CodeHorizon.{horizon_by};
ghost use Rattle.tilt_engine.specs.Standing.{AreLoops, IsStockOf, MayTurn, loop_at, turns_left, with_piece};
ghost use Rattle.tilt_engine.specs.Stock.{IsPieceOn, MadeParts};
ghost use Rattle.tilt_feed.specs.Horizon.{Horizon, is_known_at};
ghost use Rattle.tilt_stream.specs.Snap.{Snapshot};

use crate::horizon::is_known;
use crate::made::Made;
use crate::stock::Stock;
use std::alloc::AllocError as OutOfMemory;
use tilt_code::Code;
use tilt_stream::Snap;
use tilt_turn::LoopState;

// Makes the turns of the loop at a place, up to its horizon. The loops before it have made all that is known.
pub(crate) fn go_on(
    code: &Code,
    stock: &mut Stock,
    states: &mut [LoopState],
    place: usize,
    horizon: Option<i64>,
) -> Result<(), OutOfMemory>
    requires there { place < length code.now.loops }
    requires loops { (rows gone : List (List Snapshot)) × (hs : List Horizon)
        × IsStockOf code.now rows gone hs stock.old.inputs.items stock.old.loops.items states.old place
        × (horizon_by horizon ≡ loop_at code.now hs place) }
    ensures inputs { stock.new.inputs.items ≡ stock.old.inputs.items }
    ensures loops { (rows gone : List (List Snapshot)) (hs : List Horizon)
        → IsStockOf code.now rows gone hs stock.old.inputs.items stock.old.loops.items states.old place
        → horizon_by horizon ≡ loop_at code.now hs place
        → OnOk result (AreLoops code.now rows gone hs stock.new.loops.items states.new (suc place)) }
{
    while may_turn(&stock.loops[place], horizon) {
        turn(code, stock, states, place, horizon)?;
    }
    Ok(())
}

// Whether the next turn of a loop is to be made: its first tick is known, and no turn waits for its end to be known.
fn may_turn(made: &Made, horizon: Option<i64>) -> bool
    ensures { IsTrue result ↔ MayTurn (horizon_by horizon) made.now }
{
    if made.waiting().is_some() {
        return false;
    }
    made.settled() < made.hi() && is_known(horizon, made.settled() + 1)
}

// Makes the next turn of the loop at a place. Its snapshot is settled if its end is known, and waits otherwise.
fn turn(
    code: &Code,
    stock: &mut Stock,
    states: &mut [LoopState],
    place: usize,
    horizon: Option<i64>,
) -> Result<(), OutOfMemory>
    requires there { place < length code.now.loops }
    requires loops { (rows gone : List (List Snapshot)) × (hs : List Horizon)
        × IsStockOf code.now rows gone hs stock.old.inputs.items stock.old.loops.items states.old place
        × (horizon_by horizon ≡ loop_at code.now hs place) }
    requires may { (m : MadeParts) → slice_get stock.old.loops.items place ≡ Some m → MayTurn (horizon_by horizon) m }
    ensures inputs { stock.new.inputs.items ≡ stock.old.inputs.items }
    ensures loops { (rows gone : List (List Snapshot)) (hs : List Horizon)
        → IsStockOf code.now rows gone hs stock.old.inputs.items stock.old.loops.items states.old place
        → horizon_by horizon ≡ loop_at code.now hs place
        → OnOk result (AreLoops code.now rows gone hs stock.new.loops.items states.new place) }
    ensures fewer { OnOk result (turns_left stock.new.loops.items place < turns_left stock.old.loops.items place) }
{
    let start = stock.loops[place].settled();
    let snap = states[place].turn(stock, &code.loops()[place], start)?;
    take(&mut stock.loops[place], snap, horizon)
}

// Takes the snapshot of a turn.
fn take(made: &mut Made, snap: Snap, horizon: Option<i64>) -> Result<(), OutOfMemory>
    requires on { IsPieceOn made.old.settled made.old.hi snap }
    ensures ok { OnOk result (made.new ≡ with_piece (is_known_at (horizon_by horizon) snap.end) snap made.old) }
{
    if is_known(horizon, snap.end) {
        made.settle(snap)
    } else {
        made.wait(snap);
        Ok(())
    }
}
