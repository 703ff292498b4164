// The rows that a run keeps for its state.
ghost use Rattle.std.specs.Prelude.{◌≡◌, ◌≤ℤ◌, ℤ, true, false, map, IfOk, OnOk};
ghost use Rattle.tilt_engine.specs.FedRows.{KeepsRowsOf};
ghost use Rattle.tilt_feed.specs.Events.{after};
ghost use Rattle.tilt_feed.specs.Feed.{Feed, empty_feed};
ghost use Rattle.tilt_input_state.specs.Resume.{left_input};
ghost use Rattle.tilt_live_run.specs.KeptRows.{KeepsRows, has_rows, needs_rows};

use crate::keep::Keep;
use std::alloc::{AllocError as OutOfMemory, Global};
use tilt_engine::{FedRows, TakeError};
use tilt_feed::Event;
use tilt_input_state::InputState;

// The rows of a feed that the rest of its output reads, if they are kept.
#[derive(Drop)]
pub(crate) struct StateRows {
    fed: Option<FedRows>,
}

impl StateRows {
    // Those of so many inputs before the first event: none.
    pub(crate) fn new(alloc: Global, inputs: usize, keep: Keep) -> Result<StateRows, OutOfMemory>
        ensures rows { IfOk result (λ rows. (first : ℤ) → KeepsRows rows first (empty_feed inputs)) }
        ensures keeps { IfOk result (λ rows. has_rows rows ≡ needs_rows keep) }
    {
        match keep {
            Keep::Nothing => Ok(StateRows { fed: None }),
            Keep::State => Ok(StateRows {
                fed: Some(FedRows::new(alloc, inputs)?),
            }),
        }
    }

    // Those that were left of inputs.
    pub(crate) fn of(
        alloc: Global,
        inputs: &[InputState],
        keep: Keep,
    ) -> Result<StateRows, OutOfMemory>
        ensures rows { IfOk result (λ rows. (first : ℤ) (feed : Feed)
            → (feed.finished ≡ false → inputs.now ≡ map (left_input first) feed.inputs) → KeepsRows rows first feed) }
        ensures keeps { IfOk result (λ rows. has_rows rows ≡ needs_rows keep) }
    {
        match keep {
            Keep::Nothing => Ok(StateRows { fed: None }),
            Keep::State => Ok(StateRows {
                fed: Some(FedRows::of(alloc, inputs)?),
            }),
        }
    }

    // Takes an event. One that isn't allowed changes nothing.
    pub(crate) fn take(&mut self, event: Event) -> Result<(), OutOfMemory>
        ensures rows { (first : ℤ) (feed : Feed) → KeepsRows self.old first feed
            → OnOk result (KeepsRows self.new first (after event feed)) }
        ensures keeps { has_rows self.new ≡ has_rows self.old }
    {
        match &mut self.fed {
            Some(fed) => take_event(fed, event),
            None => Ok(()),
        }
    }

    // Lets go of closed rows that end below a tick, if there are many.
    pub(crate) fn forget(&mut self, first: i64) -> Result<(), OutOfMemory>
        ensures rows { (lower : ℤ) (feed : Feed) → lower ≤ℤ first → KeepsRows self.old lower feed
            → OnOk result (KeepsRows self.new first feed) }
        ensures keeps { has_rows self.new ≡ has_rows self.old }
    {
        match &mut self.fed {
            Some(fed) => fed.forget(first),
            None => Ok(()),
        }
    }

    // What is left of each input of an unfinished feed, without the closed rows that end below a tick.
    pub(crate) fn inputs(&self, alloc: Global, first: i64) -> Result<Vec<InputState>, OutOfMemory>
        requires { has_rows self.now ≡ true }
        ensures { (feed : Feed) → feed.finished ≡ false → KeepsRows self.now first feed
            → IfOk result (λ inputs. inputs.items ≡ map (left_input first) feed.inputs) }
    {
        let Some(fed) = &self.fed else { unreachable!() };
        fed.inputs(alloc, first)
    }
}

// Has rows that are kept take an event.
fn take_event(fed: &mut FedRows, event: Event) -> Result<(), OutOfMemory>
    ensures { (first : ℤ) (feed : Feed) → (feed.finished ≡ false → KeepsRowsOf fed.old first feed)
        → OnOk result ((after event feed).finished ≡ false → KeepsRowsOf fed.new first (after event feed)) }
{
    match fed.take(event) {
        Ok(()) => Ok(()),
        Err(TakeError::Fault(_)) => Ok(()),
        Err(TakeError::OutOfMemory) => Err(OutOfMemory),
    }
}
