// The events of a line, taken by the live engine of a query and by the rows that its state needs.
ghost use Rattle.std.specs.Prelude.{◌≡◌, ℕ, ℤ, IfOk, OnOk};
ghost use Rattle.tilt_compiler.specs.Accepted.{AcceptedParts};
ghost use Rattle.tilt_feed.specs.Events.{after, after_all};
ghost use Rattle.tilt_feed.specs.Feed.{Feed};
ghost use Rattle.tilt_live.specs.Lives.{IsLive, IsLiveOf, tick_of_live};
ghost use Rattle.tilt_live_run.specs.KeptRows.{KeepsRows, has_rows};

use crate::state_rows::StateRows;
use std::alloc::AllocError as OutOfMemory;
use tilt_engine::TakeError;
use tilt_feed::Event;
use tilt_live::Live;

// Takes events, one after another.
pub(crate) fn take_events(
    live: &mut Live,
    rows: &mut StateRows,
    events: &[Event],
) -> Result<(), OutOfMemory>
    ensures taken { (accepted : AcceptedParts) (feed : Feed) (given : ℕ) → IsLiveOf live.old accepted feed given
        → IfOk result (λ _. IsLiveOf live.new accepted (after_all events.now feed) given) }
    ensures rows { (first : ℤ) (feed : Feed) → KeepsRows rows.old first feed
        → OnOk result (KeepsRows rows.new first (after_all events.now feed)) }
    ensures tick { tick_of_live live.new ≡ tick_of_live live.old }
    ensures keeps { has_rows rows.new ≡ has_rows rows.old }
    ensures live { IsLive live.old → IsLive live.new }
{
    for event in events {
        take_event(live, *event)?;
        rows.take(*event)?;
    }
    Ok(())
}

// Takes an event. The text of a feed hands on what is allowed; what isn't would change nothing.
fn take_event(live: &mut Live, event: Event) -> Result<(), OutOfMemory>
    ensures taken { (accepted : AcceptedParts) (feed : Feed) (given : ℕ) → IsLiveOf live.old accepted feed given
        → IfOk result (λ _. IsLiveOf live.new accepted (after event feed) given) }
    ensures tick { tick_of_live live.new ≡ tick_of_live live.old }
    ensures live { IsLive live.old → IsLive live.new }
{
    match live.take(event) {
        Ok(()) | Err(TakeError::Fault(_)) => Ok(()),
        Err(TakeError::OutOfMemory) => Err(OutOfMemory),
    }
}
