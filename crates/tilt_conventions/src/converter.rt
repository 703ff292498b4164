// Readings of an input, between their arrival and the updates of its feed.
ghost use Rattle.std.specs.Prelude.{◌≡◌, ◌≤◌, ◌+◌, ◌++◌, true, None, Some, if◌then◌else◌, is_ok, IsOk, vec_len, ◌≤ℤ◌};
ghost use Rattle.std.specs.Option.{ForSome};
ghost use Rattle.tilt_base.specs.declared.limits.TheConstants.{T};
ghost use Rattle.std.specs.Vec.{vec_capacity};
ghost use Rattle.tilt_conventions.specs.Resumable.{fits};
ghost use Rattle.tilt_conventions.specs.Laws.{HoldsATick};
ghost use Rattle.tilt_conventions.specs.declared.turn.Turn.TheVariants as turn;
ghost use Rattle.tilt_conventions.specs.Steps.{is_reading_time, last_updates, nothing_kept, taken, turn_fault};

use crate::fault::{TakeError, TurnFault};
use crate::fault_of::{is_in_range, is_refused, is_tie, latest_after, placed, turn_start, unended};
use crate::handing::{end_at_last, hand_on, hand_on_due, raise, start_of};
use crate::kept::KeptConverter;
use crate::options::{Options, Ties};
use crate::turn::{Reading, Turn};
use std::alloc::AllocError as OutOfMemory;
use tilt_base::T;
use tilt_feed::{Edge, Update};

/// What is kept of an input: it takes the turns of the input, one after another, and hands on the updates of its feed.
#[derive(Debug, Drop)]
pub struct Converter {
    options: Options,
    edge: Edge,
    mark: i64,
    latest: Option<Reading>,
    skipped: u64,
    ghost times: { ForSome latest (λ reading. is_reading_time reading.tick ≡ true) },
}

impl Converter {
    ghost use Rattle.tilt_conventions.specs.Machine.{IsTaken, kept_by, options_of};
    ghost use Rattle.tilt_conventions.specs.Steps.{is_in_range, moved_all, read, settled, waiting};

    /// A converter before the first turn. A maximum age is at least one tick.
    pub fn new(options: Options) -> Converter
        requires { HoldsATick options.convention }
        ensures options { options_of result ≡ options }
        ensures kept { kept_by result ≡ nothing_kept }
    {
        Converter {
            options,
            edge: Edge {
                open_row: None,
                watermark: -T,
            },
            mark: -T,
            latest: None,
            skipped: 0,
        }
    }

    /// The converter that keeps this. Whatever turns come, it does with them what the converter did that it was kept of. A maximum age
    /// is at least one tick.
    pub fn resume(options: Options, kept: &KeptConverter) -> Converter
        requires ages { HoldsATick options.convention }
        requires fit { fits kept.now ≡ true }
        ensures options { options_of result ≡ options }
        ensures kept { kept_by result ≡ kept.now }
    {
        Converter {
            options,
            edge: kept.edge,
            mark: kept.mark,
            latest: kept.latest,
            skipped: kept.skipped,
        }
    }

    /// What it keeps, so that another converter can go on from it.
    pub fn kept(&self) -> KeptConverter
        ensures kept { result ≡ kept_by self.now }
        ensures fit { fits (kept_by self.now) ≡ true }
    {
        KeptConverter {
            edge: self.edge,
            mark: self.mark,
            latest: self.latest,
            skipped: self.skipped,
        }
    }

    /// How many readings were skipped, since another one of their tick counts. The count stays at `u64::MAX`.
    pub fn skipped(&self) -> u64
        ensures { result ≡ (kept_by self.now).skipped }
    {
        self.skipped
    }

    /// Why a turn isn't taken, or `None` if it is.
    pub fn fault(&self, turn: Turn) -> Option<TurnFault>
        ensures { result ≡ turn_fault (options_of self.now).ties (kept_by self.now) turn }
    {
        let (ties, latest) = (self.options.ties, self.latest);
        if !is_in_range(ties, latest, turn) {
            return Some(TurnFault::OutOfRange);
        }
        if turn_start(ties, latest, turn) < self.mark {
            return Some(TurnFault::Late);
        }
        if is_refused(ties, latest, turn) {
            return Some(TurnFault::Tie);
        }
        None
    }

    /// Takes a turn, and appends the updates that it hands on. `Fault` comes exactly if the turn isn't taken, and nothing changes.
    /// `OutOfMemory` comes if memory runs out for a turn that would be taken, and nothing changes either.
    /// A turn hands on four updates at most.
    pub fn take(&mut self, turn: Turn, updates: &mut Vec<Update>) -> Result<(), TakeError>
        ensures result { IsTaken result (turn_fault (options_of self.old).ties (kept_by self.old) turn) }
        ensures kept { kept_by self.new
            ≡ (if is_ok result then (taken (options_of self.old) turn (kept_by self.old)).kept else kept_by self.old) }
        ensures updates { updates.new.items
            ≡ (if is_ok result then updates.old.items ++ (taken (options_of self.old) turn (kept_by self.old)).updates
            else updates.old.items) }
        ensures options { options_of self.new ≡ options_of self.old }
        ensures memory { vec_len updates.old + 4 ≤ vec_capacity updates.old
            → turn_fault (options_of self.old).ties (kept_by self.old) turn ≡ None → IsOk result }
        ensures capacity { vec_capacity updates.old ≤ vec_capacity updates.new }
        ensures len { vec_len updates.new ≤ vec_len updates.old + 4 }
    {
        if let Some(fault) = self.fault(turn) {
            return Err(TakeError::Fault(fault));
        }
        if updates.reserve(4).is_err() {
            return Err(TakeError::OutOfMemory);
        }
        self.follow(turn, updates);
        Ok(())
    }

    // Follows a turn that is taken, by updates for which there is room.
    fn follow(&mut self, turn: Turn, updates: &mut Vec<Update>)
        requires times { is_in_range (options_of self.old).ties (kept_by self.old).latest turn ≡ true }
        requires room { vec_len updates.old + 4 ≤ vec_capacity updates.old }
        ensures kept { kept_by self.new ≡ (taken (options_of self.old) turn (kept_by self.old)).kept }
        ensures updates { updates.new.items ≡ updates.old.items ++ (taken (options_of self.old) turn (kept_by self.old)).updates }
        ensures options { options_of self.new ≡ options_of self.old }
        ensures capacity { vec_capacity updates.new ≡ vec_capacity updates.old }
        ensures len { vec_len updates.new ≤ vec_len updates.old + 4 }
    {
        match turn {
            Turn::Reading { reading } => {
                self.read(reading, updates);
                if is_tie(self.options.ties, self.latest, reading) {
                    self.skipped = self.skipped.saturating_add(1);
                }
                self.mark = start_of(reading);
                self.latest = latest_after(self.options.ties, reading, self.latest);
            }
            Turn::KnownUpTo { watermark } => {
                self.settle(watermark, updates);
                self.mark = watermark;
            }
        }
    }

    // A reading that is taken waits, or it is handed on at once unless it is skipped.
    fn read(&mut self, reading: Reading, updates: &mut Vec<Update>)
        requires times { is_in_range (options_of self.old).ties (kept_by self.old).latest (turn.Reading reading) ≡ true }
        requires room { vec_len updates.old + 4 ≤ vec_capacity updates.old }
        ensures kept { kept_by self.new
            ≡ record (kept_by self.old) {
              edge = moved_all (read (options_of self.old) reading (kept_by self.old)) (kept_by self.old).edge;
            } }
        ensures updates { updates.new.items ≡ updates.old.items ++ read (options_of self.old) reading (kept_by self.old) }
        ensures options { options_of self.new ≡ options_of self.old }
        ensures capacity { vec_capacity updates.new ≡ vec_capacity updates.old }
        ensures len { vec_len updates.new ≤ vec_len updates.old + 4 }
    {
        match self.options.ties {
            Ties::Last => self.settle(start_of(reading), updates),
            ties => {
                if !is_tie(ties, self.latest, reading) {
                    let reading = placed(ties, self.latest, reading);
                    hand_on(self.options.convention, reading, &mut self.edge, updates);
                }
            }
        }
    }

    // The input is known up to a tick: first what waited is handed on.
    fn settle(&mut self, tick: i64, updates: &mut Vec<Update>)
        requires times { tick ≤ℤ T }
        requires room { vec_len updates.old + 4 ≤ vec_capacity updates.old }
        ensures kept { kept_by self.new
            ≡ record (kept_by self.old) {
              edge = moved_all (settled (options_of self.old) tick (kept_by self.old)) (kept_by self.old).edge;
            } }
        ensures updates { updates.new.items ≡ updates.old.items ++ settled (options_of self.old) tick (kept_by self.old) }
        ensures options { options_of self.new ≡ options_of self.old }
        ensures capacity { vec_capacity updates.new ≡ vec_capacity updates.old }
        ensures len { vec_len updates.new ≤ vec_len updates.old + 4 }
    {
        let convention = self.options.convention;
        hand_on_due(convention, tick, self.waiting(), &mut self.edge, updates);
        raise(convention, tick, &mut self.edge, updates);
    }

    // The latest reading, if it waits until its tick has ended.
    fn waiting(&self) -> Option<Reading>
        ensures reading { result ≡ waiting (options_of self.now).ties (kept_by self.now) }
        ensures times { ForSome result (λ reading. is_reading_time reading.tick ≡ true) }
    {
        match self.options.ties {
            Ties::Last => unended(self.mark, self.latest),
            _ => None,
        }
    }

    /// Appends the updates when nothing more comes: what waits is handed on, and what holds ends by its age, at `T` at the latest. Without
    /// a maximum age it ends when its feed is finished. `OutOfMemory` comes if memory runs out, and nothing changes.
    /// There are three of them at most.
    pub fn finish(&self, updates: &mut Vec<Update>) -> Result<(), OutOfMemory>
        ensures updates { updates.new.items
            ≡ (if is_ok result then updates.old.items ++ last_updates (options_of self.now) (kept_by self.now) else updates.old.items) }
        ensures memory { vec_len updates.old + 3 ≤ vec_capacity updates.old → IsOk result }
        ensures capacity { vec_capacity updates.old ≤ vec_capacity updates.new }
        ensures len { vec_len updates.new ≤ vec_len updates.old + 3 }
    {
        updates.reserve(3)?;
        let convention = self.options.convention;
        let mut edge = self.edge;
        hand_on_due(convention, T, self.waiting(), &mut edge, updates);
        end_at_last(convention, &mut edge, updates);
        Ok(())
    }
}
