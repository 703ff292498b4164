// A run that goes on from the state of its lines.
ghost use Rattle.std.specs.Prelude.{◌≡◌, ℕ, List, IfErr, IfOk};
ghost use Rattle.tilt_feed_text.specs.Split.{ended};
ghost use Rattle.tilt_live_folder.specs.Feeds.{IsLeft, RejectsState};
ghost use Rattle.tilt_live_folder.specs.Machines.{CanRun, IsRunning};

use crate::machine::{LiveMachine, open_states};
use crate::recipe::LiveRecipe;
use std::alloc::Global;
use tilt_exactly_once::{Refusal, Resumed};
use tilt_live_run::{Keep, LiveRun};

// The machine that goes on from the state that a text spells, after the lines of its feed.
pub(crate) fn resume_lines(
    alloc: Global,
    recipe: LiveRecipe,
    text: &[u8],
) -> Result<Resumed<LiveMachine>, Refusal>
    ensures is { (bytes : List ℕ) (written : ℕ) → IsLeft recipe bytes written text.now
        → IfOk result (λ resumed. IsRunning resumed.machine recipe (ended bytes)) }
    ensures written { (bytes : List ℕ) (written : ℕ) → IsLeft recipe bytes written text.now
        → IfOk result (λ resumed. resumed.written ≡ written) }
    ensures taken { (bytes : List ℕ) (written : ℕ) → IsLeft recipe bytes written text.now
        → IfErr result (λ refusal. refusal ≡ Refusal.OutOfMemory) }
    ensures rejected { IfErr result (λ refusal. RejectsState recipe text.now refusal) }
    ensures can { IfOk result (λ resumed. CanRun resumed.machine) }
{
    let state = recipe.read(alloc, text)?;
    let written = state.state.progress.written;
    let taken = state.state.progress.bytes;
    let LiveRecipe {
        query,
        accepted,
        options,
    } = recipe;
    let tail = Vec::new(alloc);
    let Ok(opening) = open_states(alloc, &options.form) else {
        return Err(Refusal::OutOfMemory);
    };
    match LiveRun::resume(alloc, accepted, options, state, Keep::State) {
        Ok(run) => Ok(Resumed {
            machine: LiveMachine {
                run,
                query,
                opening,
                tail,
                taken,
            },
            written,
        }),
        Err(_) => Err(Refusal::OutOfMemory),
    }
}
