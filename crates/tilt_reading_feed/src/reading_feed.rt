// A feed whose inputs take readings.
ghost use Rattle.std.specs.Prelude.{◌≤◌, ◌<◌, ◌^◌, length, true};
ghost use Rattle.std.specs.List.{AllByRecursion};
ghost use Rattle.std.specs.Vec.{vec_capacity};

use crate::fault::{FeedFault, TakeError};
use crate::fault_of::{known_fault, readings_fault};
use crate::kept::KeptReadings;
use crate::room::{keep_converters, make_converters, reserve_turns, resume_converters};
use crate::turning::{finish_all, read_each, turn_all};
use std::alloc::{AllocError as OutOfMemory, Global};
use tilt_conventions::{Converter, Options, Turn};
use tilt_feed::{Event, Update};
use tilt_reading_lines::InputReading;

/// The feed of some inputs: it takes what lines say, one after another, and hands on its events. Each input has a converter of its own.
#[derive(Drop)]
pub struct ReadingFeed {
    converters: Vec<Converter>,
    // What a converter hands on, before it becomes events.
    updates: Vec<Update>,
    finished: bool,
    ghost few: { length converters.items < 2 ^ 32 },
    ghost spare: { 4 ≤ vec_capacity updates },
}

impl ReadingFeed {
    ghost use Rattle.std.specs.Prelude.{◌≡◌, ◌++◌, if◌then◌else◌, is_ok, IfOk, slice_get, option_map};
    ghost use Rattle.tilt_conventions.specs.Resumable.{fits};
    ghost use Rattle.tilt_reading_feed.specs.Kept.{bare_kept, options_kept, with_options};
    ghost use Rattle.tilt_reading_feed.specs.Laws.{HoldTicks, nothing_read};
    ghost use Rattle.tilt_reading_feed.specs.Machine.{IsTaken, feed_kept};
    ghost use Rattle.tilt_reading_feed.specs.Steps.{end_fault, feed_finished, line_fault, line_taken};

    /// The feed of inputs whose readings mean this, in the order of the inputs, before the first line. A maximum age is at least one tick.
    /// `OutOfMemory` comes if memory runs out, and for no other reason.
    pub fn new(alloc: Global, options: &[Options]) -> Result<ReadingFeed, OutOfMemory>
        requires few { length options.now < 2 ^ 32 }
        requires ages { HoldTicks options.now }
        ensures { IfOk result (λ feed. feed_kept feed ≡ nothing_read options.now) }
    {
        let updates = Vec::with_capacity(alloc, 4)?;
        let converters = make_converters(alloc, options)?;
        Ok(ReadingFeed {
            converters,
            updates,
            finished: false,
        })
    }

    /// The feed that keeps this, of inputs whose readings mean this, in the order of the inputs. Whatever lines come, it does with them
    /// what the feed did that it was kept of. A maximum age is at least one tick. `OutOfMemory` comes if memory runs out, and for no
    /// other reason.
    pub fn resume(
        alloc: Global,
        options: &[Options],
        kept: &KeptReadings,
    ) -> Result<ReadingFeed, OutOfMemory>
        requires few { length options.now < 2 ^ 32 }
        requires ages { HoldTicks options.now }
        requires each { length kept.now.inputs ≡ length options.now }
        requires fit { AllByRecursion (λ kept. fits kept ≡ true) kept.now.inputs }
        ensures { IfOk result (λ feed. feed_kept feed ≡ with_options options.now kept.now) }
    {
        let updates = Vec::with_capacity(alloc, 4)?;
        let converters = resume_converters(alloc, options, &kept.inputs)?;
        Ok(ReadingFeed {
            converters,
            updates,
            finished: kept.finished,
        })
    }

    /// What it keeps, so that another feed with the same options can go on from it. `OutOfMemory` comes if memory runs out, and for no
    /// other reason.
    pub fn kept(&self, alloc: Global) -> Result<KeptReadings, OutOfMemory>
        ensures kept { IfOk result (λ kept. kept ≡ bare_kept (feed_kept self.now)) }
        ensures same { IfOk result (λ kept. with_options (options_kept (feed_kept self.now)) kept ≡ feed_kept self.now) }
        ensures each { IfOk result (λ kept. length kept.inputs ≡ length (feed_kept self.now).inputs) }
        ensures few { length (feed_kept self.now).inputs < 2 ^ 32 }
        ensures fit { IfOk result (λ kept. AllByRecursion (λ kept. fits kept ≡ true) kept.inputs) }
    {
        let inputs = keep_converters(alloc, &self.converters)?;
        Ok(KeptReadings {
            inputs,
            finished: self.finished,
        })
    }

    /// How many readings of an input were skipped, since another one of their tick counts; `None` if there is no such input. The count
    /// stays at `u64::MAX`.
    pub fn skipped(&self, input: u32) -> Option<u64>
        ensures { result ≡ option_map (λ kept. kept.kept.skipped) (slice_get (feed_kept self.now).inputs input) }
    {
        let converter = self.converters.get(input as usize)?;
        Some(converter.skipped())
    }

    /// Why what a line says isn't taken, or `None` if it is: its readings, and the tick up to which all inputs are known, if it says that.
    pub fn fault(&self, readings: &[InputReading], known: Option<i64>) -> Option<FeedFault>
        ensures { result ≡ line_fault (feed_kept self.now) (record { readings = readings.now; known = known }) }
    {
        if self.finished {
            return Some(FeedFault::Finished);
        }
        match readings_fault(&self.converters, readings) {
            Some(fault) => Some(fault),
            None => known_fault(known),
        }
    }

    /// Takes what a line says, and appends the events that it hands on: those of its readings, and then those of the tick up to which all
    /// inputs are known. An input that is known further already has none of these. `Fault` comes exactly if the line isn't taken, and
    /// nothing changes. `OutOfMemory` comes if memory runs out for a line that would be taken, and nothing changes either.
    pub fn take(
        &mut self,
        readings: &[InputReading],
        known: Option<i64>,
        events: &mut Vec<Event>,
    ) -> Result<(), TakeError>
        ensures result { IsTaken result (line_fault (feed_kept self.old) (record { readings = readings.now; known = known })) }
        ensures kept { feed_kept self.new ≡ (if is_ok result
            then (line_taken (record { readings = readings.now; known = known }) (feed_kept self.old)).kept else feed_kept self.old) }
        ensures events { events.new.items ≡ (if is_ok result
            then events.old.items ++ (line_taken (record { readings = readings.now; known = known }) (feed_kept self.old)).events
            else events.old.items) }
    {
        if let Some(fault) = self.fault(readings, known) {
            return Err(TakeError::Fault(fault));
        }
        if !reserve_turns(readings.len(), self.converters.len(), events) {
            return Err(TakeError::OutOfMemory);
        }
        read_each(&mut self.converters, readings, &mut self.updates, events);
        if let Some(watermark) = known {
            let turn = Turn::KnownUpTo { watermark };
            turn_all(&mut self.converters, turn, &mut self.updates, events);
        }
        Ok(())
    }

    /// Finishes the feed, and appends the last events: those of each input when nothing more comes, and the end. `Fault` comes exactly if
    /// the feed is finished, and nothing changes. `OutOfMemory` comes if memory runs out, and nothing changes either.
    pub fn finish(&mut self, events: &mut Vec<Event>) -> Result<(), TakeError>
        ensures result { IsTaken result (end_fault (feed_kept self.old)) }
        ensures kept { feed_kept self.new ≡ (if is_ok result then (feed_finished (feed_kept self.old)).kept else feed_kept self.old) }
        ensures events { events.new.items ≡ (if is_ok result
            then events.old.items ++ (feed_finished (feed_kept self.old)).events else events.old.items) }
    {
        if self.finished {
            return Err(TakeError::Fault(FeedFault::Finished));
        }
        if events.reserve(3 * self.converters.len() + 1).is_err() {
            return Err(TakeError::OutOfMemory);
        }
        finish_all(&self.converters, &mut self.updates, events);
        events.push_reserved(Event::Finish);
        self.finished = true;
        Ok(())
    }
}
