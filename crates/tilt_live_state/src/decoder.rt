// A state of its spelling.
ghost use Rattle.std.specs.Prelude.{◌≡◌, ◌⊎◌, ◌↔◌, IsTrue, Ok, length, IfOk, IfErr, MatchResult};
ghost use Rattle.tilt_bounds.specs.Margins.{margins_of};
ghost use Rattle.tilt_checkpoint.specs.Valid.{IsAccepted};
ghost use Rattle.tilt_live_state.specs.Reading.{Gives, run_at};
ghost use Rattle.tilt_live_state.specs.Spelling.{spelled};
ghost use Rattle.tilt_live_state.specs.State.{LiveStateParts};
ghost use Rattle.tilt_live_state.specs.Valid.{IsInRange, IsState};
ghost use Rattle.tilt_types.specs.Checked.{core_of};

use crate::encoder::encode;
use crate::fault::StateFault;
use crate::inputs::read_inputs;
use crate::progress::Progress;
use crate::query::read_query;
use crate::reader::Reader;
use crate::state::{InputState, LiveState};
use crate::valid::is_valid;
use std::alloc::{AllocError as OutOfMemory, Global};
use tilt_bounds::Margins;
use tilt_core::Core;
use tilt_syntax::Query;

/// A state that was read, the core of its query, and how far that reads.
#[derive(Drop)]
pub struct Decoded {
    pub state: LiveState,
    pub core: Core,
    pub margins: Margins,
}

/// The state that the bytes spell, with the core and the margins of its query. `NotAState` occurs exactly if the bytes spell no valid state
/// whose numbers are in range.
pub fn decode(alloc: Global, bytes: &[u8]) -> Result<Decoded, StateFault>
    ensures state { IfOk result (λ decoded. IsState decoded.state × (bytes.now ≡ spelled decoded.state)) }
    ensures core { IfOk result (λ decoded. decoded.core ≡ core_of decoded.state.query) }
    ensures margins { IfOk result (λ decoded. margins_of decoded.core ≡ Ok decoded.margins) }
    ensures bad { IfErr result (λ fault. fault ≡ StateFault.NotAState
        → (s : LiveStateParts) → IsState s → IsInRange s → ¬ (bytes.now ≡ spelled s)) }

    // Each valid state is read back, and no other one is read.
    ensures only { (s : LiveStateParts) → IsState s → IsInRange s → bytes.now ≡ spelled s
        → MatchResult result (λ found. found.state ≡ s) (λ fault. fault ≡ StateFault.OutOfMemory) }
    ensures none { ((s : LiveStateParts) → IsState s → ¬ (bytes.now ≡ spelled s))
        → MatchResult result (λ _. ⊥) (λ fault. (fault ≡ StateFault.NotAState) ⊎ (fault ≡ StateFault.OutOfMemory)) }
{
    let decoded = read(alloc, bytes)?;
    if !is_valid(&decoded.core, &decoded.state) {
        return Err(StateFault::NotAState);
    }
    if !is_spelling(alloc, bytes, &decoded.state)? {
        return Err(StateFault::NotAState);
    }
    Ok(decoded)
}

// Whether the bytes are the spelling of a state.
fn is_spelling(alloc: Global, bytes: &[u8], state: &LiveState) -> Result<bool, OutOfMemory>
    ensures { IfOk result (λ same. IsTrue same ↔ (bytes.now ≡ spelled state.now)) }
{
    let mut text = Vec::new(alloc);
    encode(alloc, state, &mut text)?;
    Ok(bytes == text.as_slice())
}

// The state that the bytes spell, if they spell a valid one. Others may be read as any state.
fn read(alloc: Global, bytes: &[u8]) -> Result<Decoded, StateFault>
    ensures accepted { IfOk result (λ decoded. IsAccepted decoded.state.query) }
    ensures core { IfOk result (λ decoded. decoded.core ≡ core_of decoded.state.query) }
    ensures margins { IfOk result (λ decoded. margins_of decoded.core ≡ Ok decoded.margins) }
    ensures only { (s : LiveStateParts) → IsState s → IsInRange s → bytes.now ≡ spelled s
        → MatchResult result (λ found. found.state ≡ s) (λ fault. fault ≡ StateFault.OutOfMemory) }
{
    let mut reader = Reader::new(bytes);
    let asked = read_query(alloc, &mut reader)?;
    let run = read_run(alloc, reader, &asked.core)?;
    Ok(Decoded {
        state: whole(asked.query, run.0, run.1),
        core: asked.core,
        margins: asked.margins,
    })
}

// The state of these parts.
fn whole(query: Query, progress: Progress, inputs: Vec<InputState>) -> LiveState
    ensures { result ≡ record { query = query; progress = progress; inputs = inputs.items } }
{
    LiveState {
        query,
        progress,
        inputs,
    }
}

// What is after a query with this core.
fn read_run(
    alloc: Global,
    mut reader: Reader<'_>,
    core: &Core,
) -> Result<(Progress, Vec<InputState>), StateFault>
    ensures { Gives (run_at (length core.now.inputs) reader.entry) (λ run. (run.0, run.1.items)) result }
{
    let progress = reader.progress().ok_or(StateFault::NotAState)?;
    let inputs = read_inputs(alloc, &mut reader, core.inputs().len())?;
    Ok((progress, inputs))
}
