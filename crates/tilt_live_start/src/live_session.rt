// A live session of a query. The first lines of `lib.rt` say what its clauses mean together.
ghost use Rattle.std.specs.Prelude.{◌≡◌, ◌↔◌, ◌≤ℤ◌, ℕ, List, None, length, slice_get, IsErr, IsOk, IfErr, IfOk, OnErr};
ghost use Rattle.tilt_checkpoint.specs.Checkpoint.{cuts_of};
ghost use Rattle.tilt_compiler.specs.Accepted.{AcceptedParts};
ghost use Rattle.tilt_engine.specs.Engines.{HasTaken, begun_pair, given_after};
ghost use Rattle.tilt_feed.specs.Feed.{Feed};
ghost use Rattle.tilt_feed.specs.Printed.{begun, printed};
ghost use Rattle.tilt_live.specs.Lives.{IsLive, IsLiveOf};
ghost use Rattle.tilt_live_start.specs.Seen.{seen_feed};
ghost use Rattle.tilt_live_start.specs.Sessions.{IsLiveSession, IsLiveSessionOf, IsRefusedSession, open_after, open_of, opened_at};
ghost use Rattle.tilt_session.specs.Emitted.{emitted};
ghost use Rattle.tilt_session.specs.Law.{IsCheckpointOf};
ghost use Rattle.tilt_session.specs.declared.cut.Cut.TheVariants.{Upto};
ghost use Rattle.tilt_stream.specs.Snap.{Snapshot};
ghost use Rattle.tilt_types.specs.Checked.{core_of};

use crate::inputs::kept_inputs;
use crate::tick::tick_from;
use std::alloc::{AllocError as OutOfMemory, Global};
use tilt_base::Cell;
use tilt_checkpoint::{Checkpoint, Frame};
use tilt_compiler::Accepted;
use tilt_engine::TakeError;
use tilt_feed::Event;
use tilt_live::Live;
use tilt_stream::Snap;

/// A session that doesn't end: a live engine in place of the next session of a query. It takes the events of the query's feed, one after
/// another, and returns each snapshot of the output as soon as it is final. All times are in ticks.
#[derive(Drop)]
pub struct LiveSession {
    live: Live,
    // Where the snapshot began that was open at the checkpoint, until it is returned.
    open_start: Option<i64>,
}

impl LiveSession {
    /// The live session after a checkpoint, of the query that the checkpoint is of. Of its inputs it knows what the sessions saw: an event
    /// that starts before the cut of its input, or before the end of the input's last row, is late. It returns `OutOfMemory` if memory
    /// runs out, and for no other reason.
    pub fn resume(
        alloc: Global,
        checkpoint: Checkpoint,
        accepted: Accepted,
    ) -> Result<LiveSession, OutOfMemory>
        requires core { accepted.core ≡ core_of checkpoint.query }
        ensures session { IfOk result (λ session. (rows : List (List Snapshot)) → IsCheckpointOf checkpoint rows
            → IsLiveSessionOf session accepted (seen_feed (cuts_of checkpoint) rows)
            (length (emitted accepted.core rows (Upto (cuts_of checkpoint))))) }
        ensures opened { IfOk result (λ session. open_of session ≡ checkpoint.open_start) }
        ensures usable { IfOk result (λ session. IsLiveSession session) }
    {
        let frame = Frame::new(accepted.core(), accepted.margins());
        let from = tick_from(frame, checkpoint.cut());
        let open_start = checkpoint.open_start();
        let (_, series) = checkpoint.into_parts();
        let inputs = kept_inputs(alloc, series)?;
        let live = Live::resume(alloc, accepted, from, false, &inputs)?;
        Ok(LiveSession { live, open_start })
    }

    /// Takes an event. `Fault` comes exactly if the event isn't allowed: it has the first rule that the event breaks, and nothing
    /// changes. `OutOfMemory` comes if memory runs out for an event that is allowed, and nothing changes either.
    pub fn take(&mut self, event: Event) -> Result<(), TakeError>
        ensures taken { (accepted : AcceptedParts) (feed : Feed) (given : ℕ) → IsLiveSessionOf self.old accepted feed given
            → HasTaken result event feed (λ later. IsLiveSessionOf self.new accepted later given) }
        ensures opened { open_of self.new ≡ open_of self.old }
        ensures for_good { IsRefusedSession self.old → IsRefusedSession self.new }
        ensures usable { IsLiveSession self.old → IsLiveSession self.new }
    {
        self.live.take(event)
    }

    /// The next snapshot of what may be printed after the events that were taken, or `None` if all of it was printed. `OutOfMemory`
    /// comes if memory ran out in this call or in an earlier call of `next` or `begun`.
    pub fn next(&mut self) -> Result<Option<Snap>, OutOfMemory>
        requires { IsLiveSession self.old }
        ensures next { (accepted : AcceptedParts) (feed : Feed) (given : ℕ) → IsLiveSessionOf self.old accepted feed given
            → IfOk result (λ next. (next ≡ slice_get (printed accepted.core feed) given)
            × IsLiveSessionOf self.new accepted feed (given_after given next)) }
        ensures opened { IfOk result (λ next. open_of self.new ≡ open_after (open_of self.old) next) }
        ensures refused { OnErr result (IsRefusedSession self.new) }
        ensures for_good { IsRefusedSession self.old → IsErr result }
        ensures usable { IsLiveSession self.new }
    {
        let Some(snap) = self.live.next()? else {
            return Ok(None);
        };
        let whole = opened(self.open_start, snap);
        self.open_start = None;
        Ok(Some(whole))
    }

    /// The start and the value of the snapshot that has begun after those that may be printed, if all of those were printed. Both are
    /// final, and its end isn't known yet. `None` comes if no snapshot has begun. `OutOfMemory` comes if memory ran out in this call
    /// or in an earlier call of `next` or `begun`.
    pub fn begun(&mut self) -> Result<Option<(i64, Cell)>, OutOfMemory>
        requires { IsLiveSession self.old }
        ensures begun { (accepted : AcceptedParts) (feed : Feed) (given : ℕ) → IsLiveSessionOf self.old accepted feed given
            → IfOk result (λ found. (given ≡ length (printed accepted.core feed) → found ≡ begun_pair (begun accepted.core feed))
            × IsLiveSessionOf self.new accepted feed given) }
        ensures opened { open_of self.new ≡ open_of self.old }
        ensures refused { OnErr result (IsRefusedSession self.new) }
        ensures for_good { IsRefusedSession self.old → IsErr result }
        ensures usable { IsLiveSession self.new }
    {
        let Some((start, value)) = self.live.begun()? else {
            return Ok(None);
        };
        Ok(Some((opened_at(self.open_start, start), value)))
    }

    /// The live engine itself, which has the same snapshots to return. It is there exactly if no snapshot is open that was open at the
    /// checkpoint too. Otherwise the live session is returned.
    pub fn into_live(self) -> Result<Live, LiveSession>
        ensures live { IfOk result (λ live. (accepted : AcceptedParts) (feed : Feed) (given : ℕ)
            → IsLiveSessionOf self accepted feed given → IsLiveOf live accepted feed given) }
        ensures usable { IfOk result (λ live. IsLiveSession self → IsLive live) }
        ensures session { IfErr result (λ session. session ≡ self) }
        ensures exact { IsOk result ↔ (open_of self ≡ None) }
    {
        match self.open_start {
            None => Ok(self.live),
            Some(_) => Err(self),
        }
    }
}

// A snapshot that goes on from where an open one began, if one is open.
fn opened(open_start: Option<i64>, snap: Snap) -> Snap
    ensures { result ≡ record { start = opened_at open_start snap.start; end = snap.end; value = snap.value } }
{
    prove!(snap.start < snap.end);
    let Snap { start, end, value } = snap;
    Snap {
        start: opened_at(open_start, start),
        end,
        value,
    }
}

// A start that is earlier, if a snapshot is open that began earlier.
fn opened_at(open_start: Option<i64>, start: i64) -> i64
    ensures value { result ≡ opened_at open_start start }
    ensures low { result ≤ℤ start }
{
    match open_start {
        Some(open_start) => open_start.min(start),
        None => start,
    }
}
