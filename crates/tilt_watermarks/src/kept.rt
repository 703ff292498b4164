// What watermarks keep, as plain data.
ghost use Rattle.std.specs.Prelude.{◌≡◌, Some, None, false, is_none, if◌then◌else◌};
ghost use Rattle.tilt_feed.specs.Events.{update_fault, watermark_after};
ghost use Rattle.tilt_watermarks.specs.Held.{bare, fits};

use crate::updates::{fits_after, watermark_after};
use std::marker::Model;
use tilt_feed::{Edge, Update};

/// What is kept of an input. A clause sees it as plain data.
#[derive(Drop)]
pub struct KeptInput {
    /// Where what it has handed on ends.
    pub edge: Edge,
    /// The updates that it holds, in order of their starts.
    pub held: Vec<Update>,
}

impl Model for KeptInput {
    ghost use Rattle.tilt_watermarks.specs.Held.{Waiting};

    ghost Value = { Waiting };

    ghost view = { λ i. record { edge = i.edge; held = i.held.items } };
}

/// What is kept of all inputs, and of the feed. It is enough to go on from: a clause sees it as what the definition of a step keeps.
#[derive(Drop)]
pub struct KeptState {
    /// What is kept of each input, in the order of their numbers.
    pub inputs: Vec<KeptInput>,
    /// Whether the feed is finished.
    pub finished: bool,
    /// The greatest watermark that lines have given to any input, if they have given one.
    pub greatest: Option<i64>,
    /// The same if the lateness isn't taken off.
    pub latest: Option<i64>,
}

impl Model for KeptState {
    ghost use Rattle.tilt_watermarks.specs.Steps.{Kept};

    ghost Value = { Kept };

    ghost view = { λ k. record { inputs = k.inputs.items; finished = k.finished; greatest = k.greatest; latest = k.latest } };
}

/// Whether updates are allowed one after another from a watermark. Open rows count for nothing: each update has to start at the watermark
/// or after it.
pub fn fits(watermark: i64, updates: &[Update]) -> bool
    ensures { result ≡ fits watermark updates.now }
{
    let mut reached = watermark;
    for update in updates {
        match watermark_behind(reached, *update) {
            Some(next) => reached = next,
            None => return false,
        }
    }
    true
}

// The watermark after an update, if it is allowed after a watermark.
fn watermark_behind(watermark: i64, update: Update) -> Option<i64>
    ensures { result ≡ (if is_none (update_fault false (bare watermark) update) then Some (watermark_after update) else None) }
{
    if fits_after(watermark, update) {
        Some(watermark_after(update))
    } else {
        None
    }
}
