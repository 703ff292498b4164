// The loops of an engine go on to what is known.
ghost use Rattle.std.specs.Prelude.{◌≡◌, [], List, ℕ, length, map, slice_get, Some, OnOk};
ghost use Rattle.std.specs.List.{AllByRecursion};
ghost use Rattle.tilt_engine.specs.CodeHorizon.{IsTimeOrNever, code_horizons, horizon_by};
ghost use Rattle.tilt_engine.specs.GoingOn.{IsNearCode};
ghost use Rattle.tilt_engine.specs.Looking.{LooksAgain};
ghost use Rattle.tilt_engine.specs.Standing.{AreLoops, InletsGoOn, IsStockOf};
ghost use Rattle.tilt_engine.specs.Stock.{inlet_horizon, restarted};
ghost use Rattle.tilt_feed.specs.Horizon.{Horizon};
ghost use Rattle.tilt_stream.specs.Snap.{Snapshot};
ghost use Rattle.tilt_turn.specs.declared.state.LoopState.{LoopState};

use crate::horizon::{add_loops, input_horizon};
use crate::inlet::Inlet;
use crate::made::Made;
use crate::stock::Stock;
use crate::turning::go_on;
use std::alloc::AllocError as OutOfMemory;
use tilt_code::Code;
use tilt_turn::LoopState;

// Makes all turns that are known since rows came in. The horizons are those of all buffers then.
pub(crate) fn catch_up(
    code: &Code,
    stock: &mut Stock,
    states: &mut [LoopState],
    horizons: &mut Vec<Option<i64>>,
    finished: bool,
) -> Result<(), OutOfMemory>
    requires near { IsNearCode code.now }
    requires loops { (rows later gone : List (List Snapshot)) × (hs : List Horizon) × (upto : ℕ)
        × AreLoops code.now rows gone hs stock.old.loops.items states.old upto
        × InletsGoOn code.now rows later gone hs finished stock.old.inputs.items }
    ensures inputs { stock.new.inputs.items ≡ stock.old.inputs.items }
    ensures loops { (rows later gone : List (List Snapshot)) (hs : List Horizon) (upto : ℕ)
        → AreLoops code.now rows gone hs stock.old.loops.items states.old upto
        → InletsGoOn code.now rows later gone hs finished stock.old.inputs.items
        → OnOk result (AreLoops code.now later gone (map (inlet_horizon finished) stock.old.inputs.items)
        stock.new.loops.items states.new (length code.now.loops)) }
{
    // What a code keeps is known from here on.
    let _ = code.loops();
    restart_all(&mut stock.loops);
    look_again_all(states);
    find_horizons(horizons, &stock.inputs, finished, code)?;
    go_on_all(code, stock, states, horizons, finished)
}

// Lets the snapshots go whose ends may still change.
fn restart_all(loops: &mut [Made])
    ensures { loops.new ≡ map restarted loops.old }
{
    for made in loops.iter_mut() {
        made.restart();
    }
}

// Has all states look again.
fn look_again_all(states: &mut [LoopState])
    ensures many { length states.new ≡ length states.old }
    ensures each { (k : ℕ) (state after : LoopState) → slice_get states.old k ≡ Some state → slice_get states.new k ≡ Some after
        → LooksAgain state after }
{
    for state in states.iter_mut() {
        state.look_again();
    }
}

// Finds the horizons of all buffers.
fn find_horizons(
    horizons: &mut Vec<Option<i64>>,
    inputs: &[Inlet],
    finished: bool,
    code: &Code,
) -> Result<(), OutOfMemory>
    ensures value { OnOk result (map horizon_by horizons.new.items ≡ code_horizons code.now (map (inlet_horizon finished) inputs.now)) }
    ensures times { OnOk result (AllByRecursion IsTimeOrNever horizons.new.items) }
{
    horizons.clear();
    add_inputs(horizons, inputs, finished)?;
    add_loops(horizons, code.loops())
}

// Adds the horizons of inputs to none.
pub(crate) fn add_inputs(
    horizons: &mut Vec<Option<i64>>,
    inputs: &[Inlet],
    finished: bool,
) -> Result<(), OutOfMemory>
    requires { horizons.old.items ≡ [] }
    ensures value { OnOk result (map horizon_by horizons.new.items ≡ map (inlet_horizon finished) inputs.now) }
    ensures times { OnOk result (AllByRecursion IsTimeOrNever horizons.new.items) }
{
    for input in inputs {
        horizons.push(horizon_of(input, finished))?;
    }
    Ok(())
}

// Up to where an input is known.
fn horizon_of(input: &Inlet, finished: bool) -> Option<i64>
    ensures value { horizon_by result ≡ inlet_horizon finished input.now }
    ensures time { IsTimeOrNever result }
{
    input_horizon(finished, input.edge())
}

// Makes all turns that are known, loop after loop.
fn go_on_all(
    code: &Code,
    stock: &mut Stock,
    states: &mut [LoopState],
    horizons: &[Option<i64>],
    finished: bool,
) -> Result<(), OutOfMemory>
    requires loops { (rows gone : List (List Snapshot))
        × IsStockOf code.now rows gone (map (inlet_horizon finished) stock.old.inputs.items)
        stock.old.inputs.items stock.old.loops.items states.old 0 }
    requires horizons { map horizon_by horizons.now ≡ code_horizons code.now (map (inlet_horizon finished) stock.old.inputs.items) }
    ensures inputs { stock.new.inputs.items ≡ stock.old.inputs.items }
    ensures loops { (rows gone : List (List Snapshot))
        → IsStockOf code.now rows gone (map (inlet_horizon finished) stock.old.inputs.items)
        stock.old.inputs.items stock.old.loops.items states.old 0
        → OnOk result (AreLoops code.now rows gone (map (inlet_horizon finished) stock.old.inputs.items)
        stock.new.loops.items states.new (length code.now.loops)) }
{
    let inputs = code.inputs().len();
    for place in 0..code.loops().len() {
        go_on(code, stock, states, place, horizons[inputs + place])?;
    }
    Ok(())
}
