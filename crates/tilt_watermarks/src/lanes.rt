// What is kept of all inputs.
ghost use Rattle.std.specs.Prelude.{◌≡◌, ◌≤◌, ◌<◌, ◌+◌, ◌++◌, ◌^◌, [], ◌∷◌, length, map, replicate, true, false, None, Some};
ghost use Rattle.std.specs.Prelude.{ℕ, Option, IfOk, if◌then◌else◌, is_ok, vec_len};
ghost use Rattle.std.specs.List.{AllByRecursion};
ghost use Rattle.std.specs.Vec.{vec_capacity};
ghost use Rattle.tilt_feed.specs.Events.{in_range};
ghost use Rattle.tilt_feed.specs.declared.event.Event.TheVariants as event;
ghost use Rattle.tilt_watermarks.specs.Held.{Waiting};
ghost use Rattle.tilt_watermarks.specs.Laws.{IsFit};
ghost use Rattle.tilt_watermarks.specs.Steps.{closed, events_at, handed_at, held_count, input_at, inputs_entered};
ghost use Rattle.tilt_watermarks.specs.Steps.{overlaps_at, raised, raising, unknown};

use crate::kept::KeptInput;
use crate::lane::Lane;
use std::alloc::{AllocError as OutOfMemory, Global};
use tilt_base::T;
use tilt_feed::{Edge, Event, Update};

// What is kept of each input, and how many updates are held.
#[derive(Drop)]
pub(crate) struct Lanes {
    lanes: Vec<Lane>,
    held: usize,
    ghost few: { length lanes.items < 2 ^ 32 },
    ghost count: { held ≡ held_count lanes.items },
}

impl Lanes {
    // So many inputs of which nothing is known.
    pub(crate) fn new(alloc: Global, inputs: u32) -> Result<Lanes, OutOfMemory>
        ensures { IfOk result (λ lanes. lanes.lanes.items ≡ replicate inputs unknown) }
    {
        let mut lanes = Vec::new(alloc);
        for _ in 0..inputs {
            lanes.push(Lane::new(alloc))?;
        }
        Ok(Lanes { lanes, held: 0 })
    }

    // The inputs of which this is kept.
    pub(crate) fn of(alloc: Global, inputs: &[KeptInput]) -> Result<Lanes, OutOfMemory>
        requires few { length inputs.now < 2 ^ 32 }
        requires fit { (lateness : Option ℕ) × AllByRecursion (IsFit lateness) inputs.now }
        ensures { IfOk result (λ lanes. lanes.lanes.items ≡ inputs.now) }
    {
        let mut lanes = Vec::new(alloc);
        let mut held = 0;
        for input in inputs {
            held = count_with(held, input)?;
            lanes.push(Lane::of(alloc, input)?)?;
        }
        Ok(Lanes { lanes, held })
    }

    // What is kept of each input.
    pub(crate) fn kept(&self, alloc: Global) -> Result<Vec<KeptInput>, OutOfMemory>
        ensures inputs { IfOk result (λ inputs. inputs.items ≡ self.now.lanes.items) }
        ensures fit { (lateness : Option ℕ) → (lateness ≡ None → held_count self.now.lanes.items ≡ 0)
            → IfOk result (λ inputs. AllByRecursion (IsFit lateness) inputs.items) }
    {
        let mut inputs = Vec::new(alloc);
        for lane in &self.lanes {
            inputs.push(lane.kept(alloc)?)?;
        }
        Ok(inputs)
    }

    // How many inputs there are.
    pub(crate) fn len(&self) -> usize
        ensures { result ≡ length self.now.lanes.items }
    {
        self.lanes.len()
    }

    // How many updates are held.
    pub(crate) fn held(&self) -> usize
        ensures { result ≡ held_count self.now.lanes.items }
    {
        self.held
    }

    // The edge of the input with a number, or that of an unknown one if there is none.
    pub(crate) fn edge_at(&self, number: u32) -> Edge
        ensures { result ≡ (input_at self.now.lanes.items number).edge }
    {
        match self.lanes.get(number as usize) {
            Some(lane) => lane.edge(),
            None => Edge {
                open_row: None,
                watermark: -T,
            },
        }
    }

    // Whether an update doesn't fit among those that the input with a number holds.
    pub(crate) fn overlaps_at(&self, lateness: Option<u64>, number: u32, update: Update) -> bool
        ensures { result ≡ overlaps_at lateness self.now.lanes.items number update }
    {
        match (lateness, self.lanes.get(number as usize)) {
            (Some(_), Some(lane)) => lane.overlaps(update),
            _ => false,
        }
    }

    // The input with a number takes an update that is allowed and fits. Without lateness nothing is held.
    pub(crate) fn enter(
        &mut self,
        lateness: Option<u64>,
        number: u32,
        update: Update,
        events: &mut Vec<Event>,
    ) -> Result<(), OutOfMemory>
        requires none { lateness ≡ None → held_count self.old.lanes.items ≡ 0 }
        requires fits { overlaps_at lateness self.old.lanes.items number update ≡ false }
        requires times { in_range update ≡ true }
        requires room { vec_len events.old + held_count self.old.lanes.items + 1 < vec_capacity events.old }
        ensures lanes { self.new.lanes.items
            ≡ (if is_ok result then inputs_entered lateness number update self.old.lanes.items else self.old.lanes.items) }
        ensures events { events.new.items ≡ (if is_ok result
            then events.old.items ++ events_at number (handed_at lateness number update self.old.lanes.items) else events.old.items) }
        ensures capacity { vec_capacity events.new ≡ vec_capacity events.old }
        ensures len { vec_len events.new + held_count self.new.lanes.items ≤ vec_len events.old + held_count self.old.lanes.items + 2 }
        ensures none { lateness ≡ None → held_count self.new.lanes.items ≡ 0 }
    {
        let place = number as usize;
        if place >= self.lanes.len() {
            events.push_reserved(Event::Input {
                input: number,
                update,
            });
            return Ok(());
        }
        match lateness {
            Some(ticks) => self.hold_at(place, ticks, update, events),
            None => {
                self.lanes[place].move_by(update);
                events.push_reserved(Event::Input {
                    input: number,
                    update,
                });
                Ok(())
            }
        }
    }

    // The same under lateness, of an input that is there.
    fn hold_at(
        &mut self,
        place: usize,
        ticks: u64,
        update: Update,
        events: &mut Vec<Event>,
    ) -> Result<(), OutOfMemory>
        requires there { place < length self.old.lanes.items }
        requires fits { overlaps_at (Some ticks) self.old.lanes.items place update ≡ false }
        requires times { in_range update ≡ true }
        requires room { vec_len events.old + held_count self.old.lanes.items + 1 < vec_capacity events.old }
        ensures lanes { self.new.lanes.items
            ≡ (if is_ok result then inputs_entered (Some ticks) place update self.old.lanes.items else self.old.lanes.items) }
        ensures events { events.new.items ≡ (if is_ok result
            then events.old.items ++ events_at place (handed_at (Some ticks) place update self.old.lanes.items) else events.old.items) }
        ensures capacity { vec_capacity events.new ≡ vec_capacity events.old }
        ensures len { vec_len events.new + held_count self.new.lanes.items ≤ vec_len events.old + held_count self.old.lanes.items + 2 }
    {
        let lane = &mut self.lanes[place];
        let before = lane.held();
        lane.enter(place as u32, ticks, update, events)?;
        let after = lane.held();
        self.held = self.held - before + after;
        Ok(())
    }

    // All inputs become known up to an end at least, by events for which there is room.
    pub(crate) fn raise_all(&mut self, end: Option<i64>, events: &mut Vec<Event>)
        requires room { vec_len events.old + held_count self.old.lanes.items + length self.old.lanes.items ≤ vec_capacity events.old }
        ensures lanes { self.new.lanes.items ≡ map (raised end) self.old.lanes.items }
        ensures events { events.new.items ≡ events.old.items ++ raising 0 end self.old.lanes.items }
        ensures capacity { vec_capacity events.new ≡ vec_capacity events.old }
        ensures len { vec_len events.new + held_count self.new.lanes.items
            ≤ vec_len events.old + held_count self.old.lanes.items + length self.old.lanes.items }
        ensures held { held_count self.new.lanes.items ≤ held_count self.old.lanes.items }
    {
        raise_each(&mut self.lanes, &mut self.held, end, events);
    }

    // Hands on all that is held, by events for which there is room, and ends the open rows.
    pub(crate) fn finish(&mut self, events: &mut Vec<Event>)
        requires room { vec_len events.old + held_count self.old.lanes.items + length self.old.lanes.items < vec_capacity events.old }
        ensures lanes { self.new.lanes.items ≡ map closed (map (raised None) self.old.lanes.items) }
        ensures events { events.new.items ≡ events.old.items ++ raising 0 None self.old.lanes.items ++ event.Finish ∷ [] }
        ensures capacity { vec_capacity events.new ≡ vec_capacity events.old }
        ensures len { vec_len events.new + held_count self.new.lanes.items
            ≤ vec_len events.old + held_count self.old.lanes.items + length self.old.lanes.items + 1 }
        ensures held { held_count self.new.lanes.items ≤ held_count self.old.lanes.items }
    {
        self.raise_all(None, events);
        events.push_reserved(Event::Finish);
        close_each(&mut self.lanes);
    }
}

// How many updates are held with those of one input more. No memory holds more than a count of 64 bits.
fn count_with(held: usize, input: &KeptInput) -> Result<usize, OutOfMemory>
    ensures { IfOk result (λ more. more ≡ held + length input.now.held) }
{
    held.checked_add(input.held.len()).ok_or(OutOfMemory)
}

// Makes each input known up to an end at least, by events for which there is room, and counts what is held.
fn raise_each(lanes: &mut [Lane], held: &mut usize, end: Option<i64>, events: &mut Vec<Event>)
    requires few { length lanes.old < 2 ^ 32 }
    requires count { held.old ≡ held_count lanes.old }
    requires room { vec_len events.old + held.old + length lanes.old ≤ vec_capacity events.old }
    ensures lanes { lanes.new ≡ map (raised end) lanes.old }
    ensures count { held.new ≡ held_count lanes.new }
    ensures fewer { held.new ≤ held.old }
    ensures events { events.new.items ≡ events.old.items ++ raising 0 end lanes.old }
    ensures capacity { vec_capacity events.new ≡ vec_capacity events.old }
    ensures len { vec_len events.new + held.new ≤ vec_len events.old + held.old + length lanes.old }
{
    let mut number = 0;
    for lane in lanes.iter_mut() {
        raise_one(lane, held, number, end, events);
        number += 1;
    }
}

// Makes the input with a number known up to an end at least, by events for which there is room, and counts what is held.
fn raise_one(
    lane: &mut Lane,
    held: &mut usize,
    number: u32,
    end: Option<i64>,
    events: &mut Vec<Event>,
)
    requires some { length lane.old.held ≤ held.old }
    requires room { vec_len events.old + length lane.old.held < vec_capacity events.old }
    ensures lane { lane.new ≡ raised end lane.old }
    ensures count { held.new + length lane.old.held ≡ held.old + length lane.new.held }
    ensures fewer { held.new ≤ held.old }
    ensures events { events.new.items ≡ events.old.items ++ raising number end (lane.old ∷ []) }
    ensures capacity { vec_capacity events.new ≡ vec_capacity events.old }
    ensures len { vec_len events.new + held.new ≤ vec_len events.old + held.old + 1 }
{
    let before = lane.held();
    lane.raise(number, end, events);
    *held = *held - before + lane.held();
}

// Ends the open row of each input.
fn close_each(lanes: &mut [Lane])
    ensures lanes { lanes.new ≡ map closed lanes.old }
    ensures count { held_count lanes.new ≡ held_count lanes.old }
{
    for lane in lanes.iter_mut() {
        lane.close();
    }
}
