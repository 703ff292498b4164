// Watermarks between the lines of a live feed and its events.
ghost use Rattle.std.specs.Prelude.{◌≡◌, ◌++◌, ◌<◌, ◌^◌, None, if◌then◌else◌, is_ok, length, IfOk};
ghost use Rattle.std.specs.List.{AllByRecursion};
ghost use Rattle.tilt_watermarks.specs.Laws.{IsFit};
ghost use Rattle.tilt_watermarks.specs.Steps.{held_count, line_fault, nothing_kept, taken};

use crate::fault::{TakeError, TakeFault};
use crate::fault_of::{fault_by, is_ahead, is_overlap, rule_broken};
use crate::following::{follow, greatest_after, idle_tick, is_end};
use crate::kept::KeptState;
use crate::lanes::Lanes;
use crate::options::Options;
use std::alloc::{AllocError as OutOfMemory, Global};
use tilt_feed::Event;
use tilt_feed_line::Line;

/// The watermarks of a live feed: they take its lines, one after another, and hand on its events.
#[derive(Drop)]
pub struct Watermarks {
    options: Options,
    lanes: Lanes,
    finished: bool,
    greatest: Option<i64>,
    latest: Option<i64>,
    ghost none: { options.lateness ≡ None → held_count lanes.lanes.items ≡ 0 },
}

impl Watermarks {
    ghost use Rattle.tilt_watermarks.specs.Machine.{IsTaken, kept_by, options_of};

    /// The watermarks of this many inputs before the first line. `OutOfMemory` comes if memory runs out, and for no other reason.
    pub fn new(alloc: Global, options: Options, inputs: u32) -> Result<Watermarks, OutOfMemory>
        ensures options { IfOk result (λ watermarks. options_of watermarks ≡ options) }
        ensures kept { IfOk result (λ watermarks. kept_by watermarks ≡ nothing_kept inputs) }
    {
        let lanes = Lanes::new(alloc, inputs)?;
        Ok(Watermarks {
            options,
            lanes,
            finished: false,
            greatest: None,
            latest: None,
        })
    }

    /// The watermarks that keep this. Whatever lines come, they do with them what those did that it was kept of. `OutOfMemory` comes if
    /// memory is refused, and for no other reason.
    pub fn resume(
        alloc: Global,
        options: Options,
        kept: &KeptState,
    ) -> Result<Watermarks, OutOfMemory>
        requires few { length kept.now.inputs < 2 ^ 32 }
        requires fit { AllByRecursion (IsFit options.lateness) kept.now.inputs }
        ensures options { IfOk result (λ watermarks. options_of watermarks ≡ options) }
        ensures kept { IfOk result (λ watermarks. kept_by watermarks ≡ kept.now) }
    {
        let lanes = Lanes::of(alloc, &kept.inputs)?;
        Ok(Watermarks {
            options,
            lanes,
            finished: kept.finished,
            greatest: kept.greatest,
            latest: kept.latest,
        })
    }

    /// What they keep, so that others can go on from it. `OutOfMemory` comes if memory is refused, and for no other reason.
    pub fn kept(&self, alloc: Global) -> Result<KeptState, OutOfMemory>
        ensures kept { IfOk result (λ kept. kept ≡ kept_by self.now) }
        ensures few { length (kept_by self.now).inputs < 2 ^ 32 }
        ensures fit { IfOk result (λ kept. AllByRecursion (IsFit (options_of self.now).lateness) kept.inputs) }
    {
        let inputs = self.lanes.kept(alloc)?;
        Ok(KeptState {
            inputs,
            finished: self.finished,
            greatest: self.greatest,
            latest: self.latest,
        })
    }

    /// What is asked of them.
    pub fn options(&self) -> Options
        ensures { result ≡ options_of self.now }
    {
        self.options
    }

    /// How many updates are held, of all inputs.
    pub fn held(&self) -> usize
        ensures { result ≡ held_count (kept_by self.now).inputs }
    {
        self.lanes.held()
    }

    /// Why a line isn't taken, or `None` if it is.
    pub fn fault(&self, line: Line) -> Option<TakeFault>
        ensures { result ≡ line_fault (options_of self.now) (kept_by self.now) line }
    {
        let lateness = self.options.lateness;
        let rule = rule_broken(lateness, self.finished, &self.lanes, line);
        let overlap = is_overlap(lateness, &self.lanes, line);
        fault_by(
            rule,
            overlap,
            is_ahead(self.options.ahead, self.latest, line),
        )
    }

    /// Takes a line, and appends the events that it hands on. `Fault` comes exactly if the line isn't taken, and nothing changes.
    /// `OutOfMemory` comes if memory runs out for a line that would be taken, and nothing changes either.
    pub fn take(&mut self, line: Line, events: &mut Vec<Event>) -> Result<(), TakeError>
        ensures result { IsTaken result (line_fault (options_of self.old) (kept_by self.old) line) }
        ensures kept { kept_by self.new
            ≡ (if is_ok result then (taken (options_of self.old) line (kept_by self.old)).kept else kept_by self.old) }
        ensures events { events.new.items
            ≡ (if is_ok result then events.old.items ++ (taken (options_of self.old) line (kept_by self.old)).events
            else events.old.items) }
        ensures options { options_of self.new ≡ options_of self.old }
    {
        if let Some(fault) = self.fault(line) {
            return Err(TakeError::Fault(fault));
        }
        let Some(room) = self.lanes.held().checked_add(2 * self.lanes.len() + 2) else {
            return Err(TakeError::OutOfMemory);
        };
        if events.reserve(room).is_err() {
            return Err(TakeError::OutOfMemory);
        }
        if follow(self.options.lateness, &mut self.lanes, line, events).is_err() {
            return Err(TakeError::OutOfMemory);
        }
        self.finished = is_end(line);
        self.greatest = greatest_after(self.options.lateness, line, self.greatest);
        self.latest = greatest_after(None, line, self.latest);
        if let Some(tick) = idle_tick(self.options.idle, self.finished, self.greatest) {
            self.lanes.raise_all(Some(tick), events);
        }
        Ok(())
    }
}
