// The engine.
ghost use Rattle.std.specs.Prelude.{◌≡◌, ◌≢◌, ◌≤◌, ◌+◌, ℕ, drop, length, map, slice_get, IsErr, IfOk, OnErr, OnOk};
ghost use Rattle.tilt_code.specs.Code.{CodeParts};
ghost use Rattle.tilt_engine.specs.AtRest.{horizons_of, last_horizon, run_at_rest};
ghost use Rattle.tilt_engine.specs.Engines.{HasTaken, IsCurrent, IsEngine, IsEngineAt, IsEngineOf, IsNextOf, IsRefused};
ghost use Rattle.tilt_engine.specs.Engines.{begun_pair, finishes, given_after, held_by, room_of};
ghost use Rattle.tilt_engine.specs.CodeHorizon.{horizon_by};
ghost use Rattle.tilt_engine.specs.GoingOn.{IsNearCode};
ghost use Rattle.tilt_engine.specs.Keeping.{HasJustForgotten, KeepsFew};
ghost use Rattle.tilt_engine.specs.declared.engine.TheConstants.{FEW};
ghost use Rattle.tilt_engine.specs.declared.status.Status.TheVariants.{Behind, Refused};
ghost use Rattle.tilt_feed.specs.Events.{event_fault};
ghost use Rattle.tilt_feed.specs.Feed.{Feed, empty_feed};
ghost use Rattle.tilt_feed.specs.Horizon.{IsKnownAt};
ghost use Rattle.tilt_feed.specs.Resting.{begun_next, ended_by};

use crate::advancing::{add_inputs, catch_up};
use crate::events::{fault_of, take_event};
use crate::fault::TakeError;
use crate::forgetting::forget;
use crate::starting::{new_states, new_stock};
use crate::status::Status;
use crate::stock::Stock;
use std::alloc::{AllocError as OutOfMemory, Global};
use tilt_base::Cell;
use tilt_code::Code;
use tilt_feed::{Event, EventFault};
use tilt_stream::Snap;
use tilt_turn::LoopState;

/// A code that runs while the rows of its inputs come in, event by event. After each event its run is the one on the rows of the feed
/// at rest, of which it gives what is known.
#[derive(Drop)]
pub struct Engine {
    code: Code,
    stock: Stock,
    states: Vec<LoopState>,
    horizons: Vec<Option<i64>>,
    status: Status,
    finished: bool,
    given: usize,
    limit: u128,
    alloc: Global,
}

/// An engine that keeps no more than this never looks for what isn't needed any more.
pub const FEW: u128 = 1024;

impl Engine {
    /// The engine of a code before the first event. `OutOfMemory` comes if memory runs out, and for no other reason.
    pub fn new(alloc: Global, code: Code) -> Result<Engine, OutOfMemory>
        requires { IsNearCode code }
        ensures engine { IfOk result (λ engine. IsEngineOf engine code (empty_feed (length code.inputs)) 0) }
        ensures room { IfOk result (λ engine. room_of engine ≡ FEW) }
    {
        let stock = new_stock(alloc, &code)?;
        let states = new_states(alloc, &code)?;
        Ok(Engine {
            code,
            stock,
            states,
            horizons: Vec::new(alloc),
            status: Status::Behind,
            finished: false,
            given: 0,
            limit: FEW,
            alloc,
        })
    }

    /// The first rule that an event breaks, or `None` if it is allowed.
    pub fn fault(&self, event: Event) -> Option<EventFault>
        ensures { (code : CodeParts) (feed : Feed) (given : ℕ) → IsEngineOf self.now code feed given → result ≡ event_fault feed event }
    {
        fault_of(self.finished, &self.stock.inputs, event)
    }

    /// Up to where each input is known, in order, as a tick; none for ever.
    pub fn input_horizons(&self, alloc: Global) -> Result<Vec<Option<i64>>, OutOfMemory>
        ensures { IfOk result (λ horizons. (code : CodeParts) (feed : Feed) (given : ℕ) → IsEngineOf self.now code feed given
            → map horizon_by horizons.items ≡ horizons_of feed) }
    {
        let mut horizons = Vec::new(alloc);
        add_inputs(&mut horizons, &self.stock.inputs, self.finished)?;
        Ok(horizons)
    }

    /// Takes an event, which adds two rows at most. If it isn't allowed, the first rule that it breaks is returned, and nothing changes; if
    /// memory runs out, nothing changes either. No loop makes a turn before the next snapshot is asked for.
    pub fn take(&mut self, event: Event) -> Result<(), TakeError>
        ensures taken { (code : CodeParts) (feed : Feed) (given : ℕ) → IsEngineOf self.old code feed given
            → HasTaken result event feed (λ later. IsEngineOf self.new code later given) }
        ensures more { held_by self.new ≤ held_by self.old + 2 }
        ensures no_more { OnErr result (held_by self.new ≡ held_by self.old) }
        ensures room { room_of self.new ≡ room_of self.old }
        ensures for_good { IsRefused self.old → IsRefused self.new }
    {
        if let Some(fault) = fault_of(self.finished, &self.stock.inputs, event) {
            return Err(TakeError::Fault(fault));
        }
        if take_event(&mut self.stock.inputs, event).is_err() {
            return Err(TakeError::OutOfMemory);
        }
        self.finished = finishes(event);
        self.status = behind(self.status);
        Ok(())
    }

    /// The next snapshot of the run, if it ends at a limit or below it, which is known: `None` if all of these were given. `OutOfMemory`
    /// comes if memory runs out, and each time after that.
    pub fn next(&mut self, limit: i64) -> Result<Option<Snap>, OutOfMemory>
        requires { IsEngine self.old }
        ensures next { (code : CodeParts) (feed : Feed) (given : ℕ) → IsEngineOf self.old code feed given
            → IsKnownAt (last_horizon code feed) limit
            → IfOk result (λ next. (next ≡ slice_get (ended_by limit (run_at_rest code feed)) given)
            × IsEngineOf self.new code feed (given_after given next)) }
        ensures bounded { (code : CodeParts) (feed : Feed) (given : ℕ) → IsEngineOf self.old code feed given
            → OnOk result (KeepsFew code feed given (room_of self.old) (held_by self.new) (room_of self.new)) }
        ensures refused { OnErr result (IsRefused self.new) }
        ensures for_good { IsRefused self.old → IsErr result }
    {
        // What a code keeps is known from here on.
        let _ = self.code.loops();
        let Some(snap) = self.peek()? else {
            return Ok(None);
        };
        if limit < snap.end {
            return Ok(None);
        }
        self.given += 1;
        Ok(Some(snap))
    }

    /// The start and the value of the snapshot of the run after those that were given, if it starts below a limit, which is known.
    /// `OutOfMemory` comes if memory runs out, and each time after that.
    pub fn begun(&mut self, limit: i64) -> Result<Option<(i64, Cell)>, OutOfMemory>
        requires { IsEngine self.old }
        ensures begun { (code : CodeParts) (feed : Feed) (given : ℕ) → IsEngineOf self.old code feed given
            → IsKnownAt (last_horizon code feed) limit
            → IfOk result (λ begun. (begun ≡ begun_pair (begun_next limit (drop given (run_at_rest code feed))))
            × IsEngineOf self.new code feed given) }
        ensures bounded { (code : CodeParts) (feed : Feed) (given : ℕ) → IsEngineOf self.old code feed given
            → OnOk result (KeepsFew code feed given (room_of self.old) (held_by self.new) (room_of self.new)) }
        ensures refused { OnErr result (IsRefused self.new) }
        ensures for_good { IsRefused self.old → IsErr result }
    {
        // What a code keeps is known from here on.
        let _ = self.code.loops();
        match self.peek()? {
            Some(snap) if snap.start < limit => Ok(Some((snap.start, snap.value))),
            _ => Ok(None),
        }
    }

    // What the last loop has made after the snapshots that were given, once the loops have made all that is known.
    fn peek(&mut self) -> Result<Option<Snap>, OutOfMemory>
        requires { IsEngine self.old }
        ensures next { (code : CodeParts) (feed : Feed) (given : ℕ) → IsEngineOf self.old code feed given
            → IfOk result (λ next. IsNextOf code feed given next × IsEngineOf self.new code feed given) }
        ensures bounded { (code : CodeParts) (feed : Feed) (given : ℕ) → IsEngineOf self.old code feed given
            → OnOk result (KeepsFew code feed given (room_of self.old) (held_by self.new) (room_of self.new)) }
        ensures refused { OnErr result (IsRefused self.new) }
        ensures for_good { IsRefused self.old → IsErr result }
    {
        self.advance()?;
        let last = self.code.loops().len() - 1;
        Ok(self.stock.loops[last].piece(self.given))
    }

    // Makes all turns that are known.
    fn advance(&mut self) -> Result<(), OutOfMemory>
        requires { IsEngine self.old }
        ensures engine { (code : CodeParts) (feed : Feed) (given : ℕ) → IsEngineOf self.old code feed given
            → OnOk result (IsEngineOf self.new code feed given) }
        ensures bounded { (code : CodeParts) (feed : Feed) (given : ℕ) → IsEngineOf self.old code feed given
            → OnOk result (KeepsFew code feed given (room_of self.old) (held_by self.new) (room_of self.new)) }
        ensures current { OnOk result (IsCurrent self.new) }
        ensures refused { OnErr result (IsRefused self.new) }
        ensures for_good { IsRefused self.old → IsErr result }
    {
        match self.status {
            Status::Refused => Err(OutOfMemory),
            Status::Current => Ok(()),
            Status::Behind => self.go_on(),
        }
    }

    // Has the loops make all that is known. If more is kept then than a limit, what isn't needed any more is let go.
    fn go_on(&mut self) -> Result<(), OutOfMemory>
        requires engine { IsEngine self.old }
        requires behind { self.old.status ≡ Behind }
        ensures engine { (code : CodeParts) (feed : Feed) (given : ℕ) → IsEngineOf self.old code feed given
            → OnOk result (IsEngineOf self.new code feed given) }
        ensures bounded { (code : CodeParts) (feed : Feed) (given : ℕ) → IsEngineOf self.old code feed given
            → OnOk result (KeepsFew code feed given (room_of self.old) (held_by self.new) (room_of self.new)) }
        ensures current { OnOk result (IsCurrent self.new) }
        ensures refused { OnErr result (IsRefused self.new) }
    {
        self.catch_up()?;
        if self.held() <= self.limit {
            return Ok(());
        }
        self.forget()
    }

    // Has the loops make all that is known.
    fn catch_up(&mut self) -> Result<(), OutOfMemory>
        requires engine { IsEngine self.old }
        requires behind { self.old.status ≡ Behind }
        ensures engine { (code : CodeParts) (feed : Feed) (given : ℕ) → IsEngineAt self.old code feed given
            → OnOk result (IsEngineAt self.new code feed given) }
        ensures room { room_of self.new ≡ room_of self.old }
        ensures current { OnOk result (IsCurrent self.new) }
        ensures refused { OnErr result (IsRefused self.new) }
    {
        // So it remains if memory runs out.
        self.status = Status::Refused;
        catch_up(
            &self.code,
            &mut self.stock,
            &mut self.states,
            &mut self.horizons,
            self.finished,
        )?;
        self.status = Status::Current;
        Ok(())
    }

    // Lets go what no next turn reads, and what was given. As much again may be kept before that is looked for again.
    fn forget(&mut self) -> Result<(), OutOfMemory>
        requires engine { (code : CodeParts) × (feed : Feed) × (given : ℕ) × IsEngineAt self.old code feed given }
        requires current { IsCurrent self.old }
        ensures engine { (code : CodeParts) (feed : Feed) (given : ℕ) → IsEngineAt self.old code feed given
            → OnOk result (IsEngineAt self.new code feed given) }
        ensures forgotten { (code : CodeParts) (feed : Feed) (given : ℕ) → IsEngineAt self.old code feed given
            → OnOk result (HasJustForgotten code feed given (held_by self.new) (room_of self.new)) }
        ensures within { OnOk result (held_by self.new ≤ room_of self.new) }
        ensures current { OnOk result (IsCurrent self.new) }
        ensures refused { OnErr result (IsRefused self.new) }
    {
        // What a code keeps is known from here on.
        let _ = self.code.loops();
        // So it remains if memory runs out.
        self.status = Status::Refused;
        let gone = forget(
            self.alloc,
            &self.code,
            &mut self.stock,
            &mut self.states,
            self.given,
        )?;
        self.given -= gone;
        self.limit = self.held().saturating_mul(2).max(FEW);
        self.status = Status::Current;
        Ok(())
    }

    /// How many closed rows of inputs and settled snapshots of loops are kept. No memory is taken.
    pub fn held(&self) -> u128
        ensures { result ≡ held_by self.now }
    {
        self.stock.held()
    }
}

// Whether a feed is finished by an event.
pub(crate) fn finishes(event: Event) -> bool
    ensures { result ≡ finishes event }
{
    match event {
        Event::Input { .. } => false,
        Event::Finish => true,
    }
}

// How far an engine has come after an event.
fn behind(status: Status) -> Status
    ensures behind { status ≢ Refused → result ≡ Behind }
    ensures refused { status ≡ Refused → result ≡ Refused }
{
    match status {
        Status::Refused => Status::Refused,
        _ => Status::Behind,
    }
}
