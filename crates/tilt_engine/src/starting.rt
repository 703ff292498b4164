// Where an engine is before the first event.
ghost use Rattle.std.specs.Prelude.{◌≡◌, ℕ, length, map, replicate, slice_get, Some, IfOk};
ghost use Rattle.tilt_code.specs.Code.{LoopParts};
ghost use Rattle.tilt_engine.specs.Standing.{IsFresh};
ghost use Rattle.tilt_engine.specs.Stock.{nothing_made, resting_inlet};
ghost use Rattle.tilt_feed.specs.Feed.{unknown_input};
ghost use Rattle.tilt_turn.specs.declared.state.LoopState.{LoopState};

use crate::inlet::Inlet;
use crate::made::Made;
use crate::stock::Stock;
use std::alloc::{AllocError as OutOfMemory, Global};
use tilt_code::Code;
use tilt_turn::LoopState;

// The inputs and the loops of a code before the first event.
pub(crate) fn new_stock(alloc: Global, code: &Code) -> Result<Stock, OutOfMemory>
    ensures inputs { IfOk result (λ stock. stock.inputs.items ≡ replicate (length code.now.inputs) (resting_inlet unknown_input)) }
    ensures loops { IfOk result (λ stock. stock.loops.items ≡ map nothing_made code.now.loops) }
{
    let inputs = new_inputs(alloc, code.inputs().len())?;
    let loops = new_loops(alloc, code)?;
    Ok(Stock { inputs, loops })
}

// So many inputs of which nothing is known.
pub(crate) fn new_inputs(alloc: Global, count: usize) -> Result<Vec<Inlet>, OutOfMemory>
    ensures { IfOk result (λ inputs. inputs.items ≡ replicate count (resting_inlet unknown_input)) }
{
    let mut inputs = Vec::new(alloc);
    for _ in 0..count {
        inputs.push(Inlet::new(alloc))?;
    }
    Ok(inputs)
}

// The loops of a code, which have made nothing.
fn new_loops(alloc: Global, code: &Code) -> Result<Vec<Made>, OutOfMemory>
    ensures { IfOk result (λ loops. loops.items ≡ map nothing_made code.now.loops) }
{
    let mut loops = Vec::new(alloc);
    for each in code.loops() {
        loops.push(Made::new(alloc, each.lo, each.hi))?;
    }
    Ok(loops)
}

// The states of the loops of a code before their first turns.
pub(crate) fn new_states(alloc: Global, code: &Code) -> Result<Vec<LoopState>, OutOfMemory>
    ensures many { IfOk result (λ states. length states.items ≡ length code.now.loops) }
    ensures fresh { IfOk result (λ states. (k : ℕ) (l : LoopParts) (state : LoopState) → slice_get code.now.loops k ≡ Some l
        → slice_get states.items k ≡ Some state → IsFresh l state) }
{
    let mut states = Vec::new(alloc);
    for each in code.loops() {
        states.push(LoopState::new(alloc, each)?)?;
    }
    Ok(states)
}
