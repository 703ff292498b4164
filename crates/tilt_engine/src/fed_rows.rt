// Rows of a feed, kept so that its output can go on in a new process.
ghost use Rattle.std.specs.Prelude.{◌≡◌, ◌≤ℤ◌, ℤ, false, map, IfOk, OnOk};
ghost use Rattle.tilt_engine.specs.Engines.{HasTaken};
ghost use Rattle.tilt_engine.specs.FedRows.{KeepsRowsOf, left_inlet};
ghost use Rattle.tilt_engine.specs.Stock.{resting_inlet};
ghost use Rattle.tilt_feed.specs.Feed.{Feed, empty_feed};
ghost use Rattle.tilt_input_state.specs.Resume.{left_input};

use crate::engine::{FEW, finishes};
use crate::events::{fault_of, take_event};
use crate::fault::TakeError;
use crate::inlet::Inlet;
use crate::starting::new_inputs;
use crate::stock::rows_held;
use std::alloc::{AllocError as OutOfMemory, Global};
use tilt_feed::Event;
use tilt_input_state::InputState;

/// The rows of a feed that the rest of its output can still read. It takes the events of the feed beside an engine, which lets rows go
/// as soon as its loops have read them.
#[derive(Drop)]
pub struct FedRows {
    inputs: Vec<Inlet>,
    finished: bool,
    limit: u128,
    alloc: Global,
}

impl FedRows {
    /// The rows of this many inputs before the first event: none. `OutOfMemory` comes if memory runs out, and for no other reason.
    pub fn new(alloc: Global, inputs: usize) -> Result<FedRows, OutOfMemory>
        ensures { IfOk result (λ fed. (first : ℤ) → KeepsRowsOf fed first (empty_feed inputs)) }
    {
        Ok(FedRows {
            inputs: new_inputs(alloc, inputs)?,
            finished: false,
            limit: FEW,
            alloc,
        })
    }

    /// The rows that were left of inputs that aren't finished. `OutOfMemory` comes if memory runs out, and for no other reason.
    pub fn of(alloc: Global, inputs: &[InputState]) -> Result<FedRows, OutOfMemory>
        ensures { IfOk result (λ fed. (first : ℤ) (feed : Feed) → feed.finished ≡ false
            → inputs.now ≡ map (left_input first) feed.inputs → KeepsRowsOf fed first feed) }
    {
        Ok(FedRows {
            inputs: inlets_of(alloc, inputs)?,
            finished: false,
            limit: FEW,
            alloc,
        })
    }

    /// Takes an event. If it isn't allowed, the first rule that it breaks is returned, and nothing changes; if memory runs out, nothing
    /// changes either.
    pub fn take(&mut self, event: Event) -> Result<(), TakeError>
        ensures taken { (first : ℤ) (feed : Feed) → KeepsRowsOf self.old first feed
            → HasTaken result event feed (KeepsRowsOf self.new first) }
    {
        if let Some(fault) = fault_of(self.finished, &self.inputs, event) {
            return Err(TakeError::Fault(fault));
        }
        if take_event(&mut self.inputs, event).is_err() {
            return Err(TakeError::OutOfMemory);
        }
        self.finished = finishes(event);
        Ok(())
    }

    /// Whether the feed is finished.
    pub fn is_finished(&self) -> bool
        ensures { (first : ℤ) (feed : Feed) → KeepsRowsOf self.now first feed → result ≡ feed.finished }
    {
        self.finished
    }

    /// Lets go of closed rows that end below a tick, once more rows are kept than a limit. Then all of them go, and the limit is twice
    /// what is left, and `FEW` at least. So this costs little more than taking the rows did. `OutOfMemory` comes if memory runs out.
    pub fn forget(&mut self, first: i64) -> Result<(), OutOfMemory>
        ensures keeps { (lower : ℤ) (feed : Feed) → lower ≤ℤ first → KeepsRowsOf self.old lower feed
            → OnOk result (KeepsRowsOf self.new first feed) }
    {
        if rows_held(&self.inputs) <= self.limit {
            return Ok(());
        }
        forget_below(self.alloc, &mut self.inputs, first)?;
        self.limit = rows_held(&self.inputs).saturating_mul(2).max(FEW);
        Ok(())
    }

    /// What is left of each input of an unfinished feed, without the closed rows that end below a tick.
    pub fn inputs(&self, alloc: Global, first: i64) -> Result<Vec<InputState>, OutOfMemory>
        ensures { (lower : ℤ) (feed : Feed) → lower ≤ℤ first → feed.finished ≡ false → KeepsRowsOf self.now lower feed
            → IfOk result (λ inputs. inputs.items ≡ map (left_input first) feed.inputs) }
    {
        let mut inputs = Vec::new(alloc);
        for input in &self.inputs {
            inputs.push(input.left(alloc, first)?)?;
        }
        Ok(inputs)
    }
}

// Inputs of which this is known.
fn inlets_of(alloc: Global, inputs: &[InputState]) -> Result<Vec<Inlet>, OutOfMemory>
    ensures { IfOk result (λ inlets. inlets.items ≡ map resting_inlet inputs.now) }
{
    let mut inlets = Vec::new(alloc);
    for input in inputs {
        inlets.push(Inlet::of(alloc, input)?)?;
    }
    Ok(inlets)
}

// Lets go of the closed rows of each input that end below a tick.
fn forget_below(alloc: Global, inputs: &mut [Inlet], first: i64) -> Result<(), OutOfMemory>
    ensures { OnOk result (inputs.new ≡ map (left_inlet first) inputs.old) }
{
    for input in inputs.iter_mut() {
        input.forget_below(alloc, first)?;
    }
    Ok(())
}
