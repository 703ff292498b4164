// What is kept of one input.
ghost use Rattle.std.specs.Prelude.{◌≡◌, ◌≤◌, ◌<◌, ◌+◌, ◌++◌, not, [], length, take, true, Some, MatchOption, if◌then◌else◌};
ghost use Rattle.std.specs.Prelude.{is_ok, vec_len, IfOk};
ghost use Rattle.std.specs.List.{insert};
ghost use Rattle.std.specs.Vec.{vec_capacity};
ghost use Rattle.tilt_feed.specs.Events.{in_range};
ghost use Rattle.tilt_feed.specs.declared.update.Update.{Update};
ghost use Rattle.tilt_watermarks.specs.Held.{entered, fits, inserted, is_due, known, last_watermark, moved, moved_all, due};
ghost use Rattle.tilt_watermarks.specs.Held.{left, rising, start_of, turned, with_update};
ghost use Rattle.tilt_watermarks.specs.Handing.{HandsOn, RestsAt};
ghost use Rattle.tilt_watermarks.specs.Steps.{closed, events_at, raised, unknown};

use crate::kept::KeptInput;
use crate::updates::{fits_after, given_by, is_due, moved, start_of, watermark_after};
use std::alloc::{AllocError as OutOfMemory, Global};
use std::collections::VecDeque;
use std::marker::Model;
use tilt_base::T;
use tilt_feed::{Edge, Event, Update};

// The edge of an input after what it has handed on, and the updates that it holds, in order of their starts.
#[derive(Drop)]
pub(crate) struct Lane {
    edge: Edge,
    held: VecDeque<Update>,
}

impl Model for Lane {
    ghost use Rattle.std.specs.Prelude.{◌≡◌, true};
    ghost use Rattle.tilt_watermarks.specs.Held.{Waiting, fits};

    ghost Value = { Waiting };

    ghost view = { λ l. record { edge = l.edge; held = l.held.items } };

    ghost invariant = { λ l. fits l.edge.watermark l.held.items ≡ true };
}

impl Lane {
    // Nothing is known of the input.
    pub(crate) fn new(alloc: Global) -> Lane
        ensures { result ≡ unknown }
    {
        Lane {
            edge: Edge {
                open_row: None,
                watermark: -T,
            },
            held: VecDeque::new(alloc),
        }
    }

    // The input of which this is kept.
    pub(crate) fn of(alloc: Global, input: &KeptInput) -> Result<Lane, OutOfMemory>
        requires { fits input.now.edge.watermark input.now.held ≡ true }
        ensures { IfOk result (λ lane. lane ≡ input.now) }
    {
        let mut held = Vec::new(alloc);
        held.extend_from_slice(&input.held)?;
        Ok(Lane {
            edge: input.edge,
            held: VecDeque::from_vec(held),
        })
    }

    // What is kept of the input.
    pub(crate) fn kept(&self, alloc: Global) -> Result<KeptInput, OutOfMemory>
        ensures input { IfOk result (λ input. input ≡ self.now) }
        ensures fits { fits self.now.edge.watermark self.now.held ≡ true }
    {
        let (front, back) = self.held.as_slices();
        let mut held = Vec::new(alloc);
        held.extend_from_slice(front)?;
        held.extend_from_slice(back)?;
        Ok(KeptInput {
            edge: self.edge,
            held,
        })
    }

    // The edge.
    pub(crate) fn edge(&self) -> Edge
        ensures edge { result ≡ self.now.edge }
    {
        self.edge
    }

    // How many updates are held.
    pub(crate) fn held(&self) -> usize
        ensures { result ≡ length self.now.held }
    {
        self.held.len()
    }

    // Whether an update doesn't fit among those that are held.
    pub(crate) fn overlaps(&self, update: Update) -> bool
        ensures { result ≡ not (fits self.now.edge.watermark (with_update update self.now.held)) }
    {
        // What is held fits from here on.
        let _ = &self.held;
        match update {
            Update::KnownUpTo { .. } => false,
            _ => !self.takes(self.place_of(start_of(update)), update),
        }
    }

    // The place of an update with this start among those that are held.
    fn place_of(&self, start: i64) -> usize
        ensures bound { result ≤ length self.now.held }
        ensures place { (update : Update) → start_of update ≡ start
            → inserted update self.now.held ≡ insert self.now.held result update }
    {
        self.held
            .partition_point(|update| start_of(*update) <= start)
    }

    // Whether an update fits at a place among those that are held.
    fn takes(&self, place: usize, update: Update) -> bool
        requires { place ≤ length self.now.held }
        ensures { result ≡ fits self.now.edge.watermark (insert self.now.held place update) }
    {
        // What is held fits from here on.
        let _ = &self.held;
        if !fits_after(self.watermark_at(place), update) {
            return false;
        }
        match self.held.get(place) {
            Some(next) => fits_after(watermark_after(update), *next),
            None => true,
        }
    }

    // The watermark after the updates before a place.
    fn watermark_at(&self, place: usize) -> i64
        requires { place ≤ length self.now.held }
        ensures { result ≡ last_watermark self.now.edge.watermark (take place self.now.held) }
    {
        if place == 0 {
            return self.edge.watermark;
        }
        match self.held.get(place - 1) {
            Some(update) => watermark_after(*update),
            None => self.edge.watermark,
        }
    }

    // Takes an update under lateness, which has to fit. If memory runs out, nothing changes.
    pub(crate) fn enter(
        &mut self,
        number: u32,
        ticks: u64,
        update: Update,
        events: &mut Vec<Event>,
    ) -> Result<(), OutOfMemory>
        requires fits { fits self.old.edge.watermark (with_update update self.old.held) ≡ true }
        requires times { in_range update ≡ true }
        requires room { vec_len events.old + length self.old.held + 1 < vec_capacity events.old }
        ensures lane { self.new ≡ (if is_ok result then turned (entered (Some ticks) update self.old) self.old.edge else self.old) }
        ensures events { events.new.items ≡ (if is_ok result
            then events.old.items ++ events_at number (entered (Some ticks) update self.old).handed else events.old.items) }
        ensures capacity { vec_capacity events.new ≡ vec_capacity events.old }
        ensures len { vec_len events.new + length self.new.held ≤ vec_len events.old + length self.old.held + 2 }
        ensures held { length self.new.held ≤ length self.old.held + 1 }
    {
        self.hold(update)?;
        self.raise(number, Some(given_by(Some(ticks), update)), events);
        Ok(())
    }

    // Holds an update, unless it is "known up to". If memory runs out, nothing changes.
    fn hold(&mut self, update: Update) -> Result<(), OutOfMemory>
        requires { fits self.old.edge.watermark (with_update update self.old.held) ≡ true }
        ensures edge { self.new.edge ≡ self.old.edge }
        ensures held { self.new.held ≡ (if is_ok result then with_update update self.old.held else self.old.held) }
        ensures len { length self.new.held ≤ length self.old.held + 1 }
    {
        match update {
            Update::KnownUpTo { .. } => Ok(()),
            _ => {
                let place = self.place_of(start_of(update));
                self.held.insert(place, update)?;
                Ok(())
            }
        }
    }

    // Moves the edge by an update that is handed on at once, if nothing is held.
    pub(crate) fn move_by(&mut self, update: Update)
        requires none { self.old.held ≡ [] }
        requires times { in_range update ≡ true }
        ensures { self.new ≡ record { edge = moved update self.old.edge; held = [] } }
    {
        self.edge = moved(self.edge, update);
    }

    // The input becomes known up to an end at least, by events for which there is room.
    pub(crate) fn raise(&mut self, number: u32, end: Option<i64>, events: &mut Vec<Event>)
        requires room { vec_len events.old + length self.old.held < vec_capacity events.old }
        ensures lane { self.new ≡ raised end self.old }
        ensures events { events.new.items ≡ events.old.items ++ events_at number (known end self.old).handed }
        ensures capacity { vec_capacity events.new ≡ vec_capacity events.old }
        ensures len { vec_len events.new + length self.new.held ≤ vec_len events.old + length self.old.held + 1 }
        ensures held { length self.new.held ≤ length self.old.held }
    {
        self.hand_on(number, end, events);
        self.rise(number, end, events);
    }

    // Hands on what starts below an end.
    fn hand_on(&mut self, number: u32, end: Option<i64>, events: &mut Vec<Event>)
        requires room { vec_len events.old + length self.old.held ≤ vec_capacity events.old }
        ensures lane { self.new ≡ record { edge = moved_all (due end self.old.held) self.old.edge; held = left end self.old.held } }
        ensures events { events.new.items ≡ events.old.items ++ events_at number (due end self.old.held) }
        ensures capacity { vec_capacity events.new ≡ vec_capacity events.old }
        ensures len { vec_len events.new + length self.new.held ≡ vec_len events.old + length self.old.held }
    {
        while let Some(update) = self.pop_due(end) {
            events.push_reserved(Event::Input {
                input: number,
                update,
            });
        }
    }

    // Takes the first update out if it starts below an end, and moves the edge by it.
    fn pop_due(&mut self, end: Option<i64>) -> Option<Update>
        ensures { MatchOption result (RestsAt end self.old self.new) (λ update. HandsOn end update self.old self.new) }
    {
        match self.held.front() {
            Some(first) => {
                if !is_due(end, *first) {
                    return None;
                }
            }
            None => return None,
        }
        let first = self.held.pop_front()?;
        self.edge = moved(self.edge, first);
        Some(first)
    }

    // Becomes known up to an end, by an event for which there is room, if the watermark is below it. What is held doesn't start below it.
    fn rise(&mut self, number: u32, end: Option<i64>, events: &mut Vec<Event>)
        requires rests { due end self.old.held ≡ [] }
        requires room { vec_len events.old < vec_capacity events.old }
        ensures lane { self.new ≡ record { edge = moved_all (rising end self.old.edge) self.old.edge; held = self.old.held } }
        ensures events { events.new.items ≡ events.old.items ++ events_at number (rising end self.old.edge) }
        ensures capacity { vec_capacity events.new ≡ vec_capacity events.old }
        ensures len { vec_len events.new ≤ vec_len events.old + 1 }
    {
        let Some(end) = end else {
            return;
        };
        if self.edge.watermark < end {
            events.push_reserved(Event::Input {
                input: number,
                update: Update::KnownUpTo { watermark: end },
            });
            self.edge.watermark = end;
        }
    }

    // Ends the open row.
    pub(crate) fn close(&mut self)
        ensures { self.new ≡ closed self.old }
    {
        self.edge.open_row = None;
    }
}
