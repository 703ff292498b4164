// The live engine of an accepted query. The first lines of `lib.rt` say what its clauses mean together.
ghost use Rattle.std.specs.Prelude.{◌≡◌, ◌≤◌, ◌+◌, ◌≤ℤ◌, ℕ, None, length, drop, slice_get, take, IsErr, IfOk, OnErr, OnOk};
ghost use Rattle.tilt_code.specs.Code.{CodeParts};
ghost use Rattle.tilt_compiler.specs.Accepted.{AcceptedParts};
ghost use Rattle.tilt_engine.specs.AtRest.{run_at_rest};
ghost use Rattle.tilt_engine.specs.Engines.{HasTaken, begun_pair, given_after};
ghost use Rattle.tilt_engine.specs.Keeping.{KeepsFew};
ghost use Rattle.tilt_engine.specs.declared.engine.TheConstants.{FEW};
ghost use Rattle.tilt_feed.specs.Events.{event_fault};
ghost use Rattle.tilt_feed.specs.Feed.{Feed, empty_feed};
ghost use Rattle.tilt_feed.specs.Horizon.{horizon, output_domain};
ghost use Rattle.tilt_feed.specs.Printed.{begun, printed};
ghost use Rattle.tilt_feed.specs.Resting.{begun_next, ended_by};
ghost use Rattle.tilt_input_state.specs.Resume.{end_of, first_read, resume_tick};
ghost use Rattle.tilt_live.specs.Lives.{IsCodeFrom, IsLive, IsLiveOf, IsRefusedLive, IsRunning};
ghost use Rattle.tilt_live.specs.Lives.{held_by_live, room_of_live, tick_after, tick_of_live};
ghost use Rattle.tilt_live.specs.Resuming.{IsLeft, IsStarted, known_feed, start_of};

use crate::horizon::query_horizon;
use crate::restoring::restore;
use std::alloc::{AllocError as OutOfMemory, Global};
use tilt_base::Cell;
use tilt_compiler::Accepted;
use tilt_engine::{Engine, TakeError};
use tilt_feed::{Event, EventFault};
use tilt_input_state::InputState;
use tilt_lexer::Name;
use tilt_stream::Snap;

/// The live engine of an accepted query. It takes the events of the query's feed, one after another, and returns each snapshot of the
/// output as soon as it is final. All times are in ticks.
#[derive(Drop)]
pub struct Live {
    accepted: Accepted,
    engine: Engine,
    refused: bool,
    // Up to which tick the output is known, if it was looked for since the last event.
    known: Option<i64>,
    // The end of the last snapshot that was returned, or the tick from which the output goes on.
    upto: i64,
    alloc: Global,
}

impl Live {
    /// The live engine of a query before the first event. `OutOfMemory` comes if memory runs out, and for no other reason.
    pub fn new(alloc: Global, accepted: Accepted) -> Result<Live, OutOfMemory>
        ensures live { IfOk result (λ live. IsLiveOf live accepted (empty_feed (length accepted.core.inputs)) 0) }
        ensures started { IfOk result (λ live.
            IsStarted live accepted (output_domain accepted.core).start (empty_feed (length accepted.core.inputs))) }
        ensures usable { IfOk result (λ live. IsLive live) }
        ensures room { IfOk result (λ live. room_of_live live ≡ FEW) }
    {
        let start = accepted.domain().start;
        Live::start(alloc, accepted, start)
    }

    /// The live engine of a query whose feed was left, from what was kept of it. That is the tick after which the output goes on, whether
    /// the feed is finished, and what is left of each input. It goes on as the engine that was left would have, once that one had returned
    /// all that may be printed. It returns `OutOfMemory` if memory runs out, and for no other reason.
    pub fn resume(
        alloc: Global,
        accepted: Accepted,
        from: i64,
        finished: bool,
        inputs: &[InputState],
    ) -> Result<Live, OutOfMemory>
        requires many { length inputs.now ≡ length accepted.core.inputs }
        requires low { (output_domain accepted.core).start ≤ℤ from }
        requires high { from ≤ℤ (output_domain accepted.core).end }
        ensures live { IfOk result (λ live. (feed : Feed) → IsLeft accepted.core feed from finished inputs.now
            → IsLiveOf live accepted feed (length (printed accepted.core feed))) }
        ensures started { IfOk result (λ live. IsStarted live accepted from (known_feed finished inputs.now)) }
        ensures usable { IfOk result (λ live. IsLive live) }
    {
        let end = accepted.domain().end;
        let mut live = Live::start(alloc, accepted, from)?;
        restore(&mut live.engine, inputs, finished)?;
        if from < end {
            return Ok(live);
        }
        // Nothing comes any more. Code is for one tick at least, and the snapshot of that one was returned.
        live.find_next()?;
        Ok(live)
    }

    // The live engine of a query whose output goes on from a tick, and of whose inputs nothing is known.
    fn start(alloc: Global, accepted: Accepted, from: i64) -> Result<Live, OutOfMemory>
        requires low { (output_domain accepted.core).start ≤ℤ from }
        requires high { from ≤ℤ (output_domain accepted.core).end }
        ensures running { IfOk result (λ live. (code : CodeParts)
            × IsCodeFrom accepted.core accepted.fuse (start_of accepted.core from) code
            × IsRunning live accepted code (empty_feed (length accepted.core.inputs)) 0) }
        ensures tick { IfOk result (λ live. tick_of_live live ≡ from) }
        ensures known { IfOk result (λ live. live.known ≡ None) }
        ensures room { IfOk result (λ live. room_of_live live ≡ FEW) }
    {
        let domain = accepted.domain();
        let start = from.min(domain.end - 1);
        let code = accepted.code_on(alloc, start, domain.end)?;
        let engine = Engine::new(alloc, code)?;
        Ok(Live {
            accepted,
            engine,
            refused: false,
            known: None,
            upto: from,
            alloc,
        })
    }

    /// The names of the inputs of its query, in order: the events number them so.
    pub fn inputs(&self) -> &[Name]
        ensures names { (accepted : AcceptedParts) (feed : Feed) (given : ℕ) → IsLiveOf self.now accepted feed given
            → result.now ≡ accepted.core.inputs }
        ensures few { length result.now ≤ 256 }
    {
        self.accepted.core().inputs()
    }

    /// The first rule that an event breaks, or `None` if it is allowed.
    pub fn fault(&self, event: Event) -> Option<EventFault>
        ensures { (accepted : AcceptedParts) (feed : Feed) (given : ℕ) → IsLiveOf self.now accepted feed given
            → result ≡ event_fault feed event }
    {
        self.engine.fault(event)
    }

    /// Takes an event. `Fault` comes exactly if the event isn't allowed: it has the first rule that the event breaks, and nothing
    /// changes. `OutOfMemory` comes if memory runs out for an event that is allowed, and nothing changes either.
    pub fn take(&mut self, event: Event) -> Result<(), TakeError>
        ensures taken { (accepted : AcceptedParts) (feed : Feed) (given : ℕ) → IsLiveOf self.old accepted feed given
            → HasTaken result event feed (λ later. IsLiveOf self.new accepted later given) }
        ensures running { (accepted : AcceptedParts) (code : CodeParts) (left : Feed) (returned : ℕ)
            → IsRunning self.old accepted code left returned
            → HasTaken result event left (λ later. IsRunning self.new accepted code later returned) }
        ensures tick { tick_of_live self.new ≡ tick_of_live self.old }
        ensures more { held_by_live self.new ≤ held_by_live self.old + 2 }
        ensures no_more { OnErr result (held_by_live self.new ≡ held_by_live self.old) }
        ensures room { room_of_live self.new ≡ room_of_live self.old }
        ensures for_good { IsRefusedLive self.old → IsRefusedLive self.new }
        ensures live { IsLive self.old → IsLive self.new }
    {
        self.known = None;
        self.engine.take(event)
    }

    /// The next snapshot of what may be printed after the events that were taken, or `None` if all of it was returned. `OutOfMemory`
    /// comes if memory ran out in this call or in an earlier call of `next` or `begun`.
    pub fn next(&mut self) -> Result<Option<Snap>, OutOfMemory>
        requires { IsLive self.old }
        ensures next { (accepted : AcceptedParts) (feed : Feed) (given : ℕ) → IsLiveOf self.old accepted feed given
            → IfOk result (λ next. (next ≡ slice_get (printed accepted.core feed) given)
            × IsLiveOf self.new accepted feed (given_after given next)) }
        ensures running { (accepted : AcceptedParts) (code : CodeParts) (left : Feed) (returned : ℕ)
            → IsRunning self.old accepted code left returned
            → IfOk result (λ next. (next ≡ slice_get (ended_by (horizon accepted.core left) (run_at_rest code left)) returned)
            × IsRunning self.new accepted code left (given_after returned next)) }
        ensures bounded { (accepted : AcceptedParts) (code : CodeParts) (left : Feed) (returned : ℕ)
            → IsRunning self.old accepted code left returned
            → OnOk result (KeepsFew code left returned (room_of_live self.old) (held_by_live self.new) (room_of_live self.new)) }
        ensures tick { IfOk result (λ next. tick_of_live self.new ≡ tick_after (tick_of_live self.old) next) }
        ensures refused { OnErr result (IsRefusedLive self.new) }
        ensures for_good { IsRefusedLive self.old → IsErr result }
        ensures live { IsLive self.new }
    {
        if self.refused {
            return Err(OutOfMemory);
        }
        match self.find_next() {
            Ok(Some(snap)) => {
                self.upto = snap.end;
                Ok(Some(snap))
            }
            Ok(None) => Ok(None),
            Err(refused) => {
                self.refused = true;
                Err(refused)
            }
        }
    }

    /// The start and the value of the snapshot that has begun after those that may be printed, if all of those were returned. Both are
    /// final, and its end isn't known yet. `None` comes if no snapshot has begun. `OutOfMemory` comes if memory ran out in this call
    /// or in an earlier call of `next` or `begun`.
    pub fn begun(&mut self) -> Result<Option<(i64, Cell)>, OutOfMemory>
        requires { IsLive self.old }
        ensures begun { (accepted : AcceptedParts) (feed : Feed) (given : ℕ) → IsLiveOf self.old accepted feed given
            → IfOk result (λ found. (given ≡ length (printed accepted.core feed) → found ≡ begun_pair (begun accepted.core feed))
            × IsLiveOf self.new accepted feed given) }
        ensures running { (accepted : AcceptedParts) (code : CodeParts) (left : Feed) (returned : ℕ)
            → IsRunning self.old accepted code left returned
            → IfOk result (λ found.
            (found ≡ begun_pair (begun_next (horizon accepted.core left) (drop returned (run_at_rest code left))))
            × IsRunning self.new accepted code left returned) }
        ensures bounded { (accepted : AcceptedParts) (code : CodeParts) (left : Feed) (returned : ℕ)
            → IsRunning self.old accepted code left returned
            → OnOk result (KeepsFew code left returned (room_of_live self.old) (held_by_live self.new) (room_of_live self.new)) }
        ensures tick { tick_of_live self.new ≡ tick_of_live self.old }
        ensures refused { OnErr result (IsRefusedLive self.new) }
        ensures for_good { IsRefusedLive self.old → IsErr result }
        ensures live { IsLive self.new }
    {
        if self.refused {
            return Err(OutOfMemory);
        }
        match self.find_begun() {
            Ok(begun) => Ok(begun),
            Err(refused) => {
                self.refused = true;
                Err(refused)
            }
        }
    }

    /// The tick after which the output goes on, to be given to `resume`. It is the end of the last snapshot that was returned, or the start
    /// of the output domain if none was.
    pub fn resume_tick(&self) -> i64
        ensures value { (accepted : AcceptedParts) (feed : Feed) (given : ℕ) → IsLiveOf self.now accepted feed given
            → result ≡ end_of accepted.core (take given (printed accepted.core feed)) }
        ensures all { (accepted : AcceptedParts) (feed : Feed) → IsLiveOf self.now accepted feed (length (printed accepted.core feed))
            → result ≡ resume_tick accepted.core feed }
        ensures tick { result ≡ tick_of_live self.now }
    {
        self.upto
    }

    /// The first tick of the inputs that the output after `resume_tick` reads: rows that end below it aren't needed any more.
    pub fn first_read(&self) -> i64
        ensures value { (accepted : AcceptedParts) (feed : Feed) (given : ℕ) → IsLiveOf self.now accepted feed given
            → result ≡ first_read accepted.core (end_of accepted.core (take given (printed accepted.core feed))) }
        ensures all { (accepted : AcceptedParts) (feed : Feed) → IsLiveOf self.now accepted feed (length (printed accepted.core feed))
            → result ≡ first_read accepted.core (resume_tick accepted.core feed) }
    {
        let back = self.accepted.margins().back();
        self.upto.saturating_add(1).saturating_sub(back)
    }

    /// How many closed rows of inputs and final snapshots of definitions are kept. No memory is taken.
    pub fn held(&self) -> u128
        ensures { result ≡ held_by_live self.now }
    {
        self.engine.held()
    }

    // The next snapshot of its run that is known.
    fn find_next(&mut self) -> Result<Option<Snap>, OutOfMemory>
        requires { (accepted : AcceptedParts) × (code : CodeParts) × (left : Feed) × (returned : ℕ)
            × IsRunning self.old accepted code left returned }
        ensures next { (accepted : AcceptedParts) (code : CodeParts) (left : Feed) (returned : ℕ)
            → IsRunning self.old accepted code left returned
            → IfOk result (λ next. (next ≡ slice_get (ended_by (horizon accepted.core left) (run_at_rest code left)) returned)
            × IsRunning self.new accepted code left (given_after returned next)) }
        ensures bounded { (accepted : AcceptedParts) (code : CodeParts) (left : Feed) (returned : ℕ)
            → IsRunning self.old accepted code left returned
            → OnOk result (KeepsFew code left returned (room_of_live self.old) (held_by_live self.new) (room_of_live self.new)) }
        ensures tick { tick_of_live self.new ≡ tick_of_live self.old }
    {
        let horizon = self.horizon()?;
        self.engine.next(horizon)
    }

    // What of its run has begun after the snapshots that were returned.
    fn find_begun(&mut self) -> Result<Option<(i64, Cell)>, OutOfMemory>
        requires { (accepted : AcceptedParts) × (code : CodeParts) × (left : Feed) × (returned : ℕ)
            × IsRunning self.old accepted code left returned }
        ensures begun { (accepted : AcceptedParts) (code : CodeParts) (left : Feed) (returned : ℕ)
            → IsRunning self.old accepted code left returned
            → IfOk result (λ found.
            (found ≡ begun_pair (begun_next (horizon accepted.core left) (drop returned (run_at_rest code left))))
            × IsRunning self.new accepted code left returned) }
        ensures bounded { (accepted : AcceptedParts) (code : CodeParts) (left : Feed) (returned : ℕ)
            → IsRunning self.old accepted code left returned
            → OnOk result (KeepsFew code left returned (room_of_live self.old) (held_by_live self.new) (room_of_live self.new)) }
        ensures tick { tick_of_live self.new ≡ tick_of_live self.old }
    {
        let horizon = self.horizon()?;
        self.engine.begun(horizon)
    }

    // Up to which tick the output is known. It is looked for once after an event.
    fn horizon(&mut self) -> Result<i64, OutOfMemory>
        requires { (accepted : AcceptedParts) × (code : CodeParts) × (left : Feed) × (returned : ℕ)
            × IsRunning self.old accepted code left returned }
        ensures tick { (accepted : AcceptedParts) (code : CodeParts) (left : Feed) (returned : ℕ)
            → IsRunning self.old accepted code left returned → IfOk result (λ tick. tick ≡ horizon accepted.core left) }
        ensures running { (accepted : AcceptedParts) (code : CodeParts) (left : Feed) (returned : ℕ)
            → IsRunning self.old accepted code left returned → IsRunning self.new accepted code left returned }
        ensures engine { self.new.engine ≡ self.old.engine }
        ensures upto { tick_of_live self.new ≡ tick_of_live self.old }
    {
        if let Some(tick) = self.known {
            return Ok(tick);
        }
        let tick = self.find_horizon()?;
        self.known = Some(tick);
        Ok(tick)
    }

    // Looks up to which tick the output is known.
    fn find_horizon(&self) -> Result<i64, OutOfMemory>
        requires { (accepted : AcceptedParts) × (code : CodeParts) × (left : Feed) × (returned : ℕ)
            × IsRunning self.now accepted code left returned }
        ensures { IfOk result (λ tick. (accepted : AcceptedParts) (code : CodeParts) (left : Feed) (returned : ℕ)
            → IsRunning self.now accepted code left returned → tick ≡ horizon accepted.core left) }
    {
        let inputs = self.engine.input_horizons(self.alloc)?;
        query_horizon(self.alloc, self.accepted.core(), &inputs)
    }
}
