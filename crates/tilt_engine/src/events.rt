// The events that the inputs of an engine take.
ghost use Rattle.std.specs.Prelude.{◌≡◌, None, OnErr, OnOk, false, map};
ghost use Rattle.tilt_engine.specs.Inlets.{inlet_edge, inlet_fault, inlets_after, updated_inlets};
ghost use Rattle.tilt_engine.specs.Stock.{finished_inlet};
ghost use Rattle.tilt_feed.specs.Events.{update_fault};

use crate::inlet::Inlet;
use std::alloc::AllocError as OutOfMemory;
use tilt_base::T;
use tilt_feed::{Edge, Event, EventFault, Update, update_fault};

// The first rule that an event breaks, or `None` if it is allowed.
pub(crate) fn fault_of(finished: bool, inputs: &[Inlet], event: Event) -> Option<EventFault>
    ensures { result ≡ inlet_fault finished inputs.now event }
{
    match event {
        Event::Input { input, update } => update_fault(finished, edge_at(inputs, input), update),
        Event::Finish => {
            if finished {
                Some(EventFault::Finished)
            } else {
                None
            }
        }
    }
}

// The edge of an input, or that of an unknown one if there is no such input.
fn edge_at(inputs: &[Inlet], number: u32) -> Edge
    ensures { result ≡ inlet_edge inputs.now number }
{
    match inputs.get(number as usize) {
        Some(input) => input.edge(),
        None => Edge {
            open_row: None,
            watermark: -T,
        },
    }
}

// Takes an event that is allowed. If memory runs out, nothing changes.
pub(crate) fn take_event(inputs: &mut [Inlet], event: Event) -> Result<(), OutOfMemory>
    requires { inlet_fault false inputs.old event ≡ None }
    ensures ok { OnOk result (inputs.new ≡ inlets_after event inputs.old) }
    ensures err { OnErr result (inputs.new ≡ inputs.old) }
{
    match event {
        Event::Input { input, update } => update_at(inputs, input, update),
        Event::Finish => {
            finish_all(inputs);
            Ok(())
        }
    }
}

// Takes an update of an input, which is allowed. If there is no such input, nothing changes.
fn update_at(inputs: &mut [Inlet], number: u32, update: Update) -> Result<(), OutOfMemory>
    requires { update_fault false (inlet_edge inputs.old number) update ≡ None }
    ensures ok { OnOk result (inputs.new ≡ updated_inlets number update inputs.old) }
    ensures err { OnErr result (inputs.new ≡ inputs.old) }
{
    let place = number as usize;
    if place < inputs.len() {
        inputs[place].update(update)
    } else {
        Ok(())
    }
}

// Takes it that nothing more comes of any input.
fn finish_all(inputs: &mut [Inlet])
    ensures { inputs.new ≡ map (λ i. finished_inlet i.input) inputs.old }
{
    for input in inputs.iter_mut() {
        input.finish();
    }
}
