// Turns of inputs, and the events that they hand on.
ghost use Rattle.std.specs.Prelude.{◌≡◌, ◌≤◌, ◌<◌, ◌+◌, ◌*◌, ◌^◌, ◌++◌, length, map, vec_len};
ghost use Rattle.std.specs.Vec.{vec_capacity};
ghost use Rattle.tilt_reading_feed.specs.Machine.{input_of, inputs_of};
ghost use Rattle.tilt_reading_feed.specs.Steps.{events_at, events_each, events_read, handed, handed_at, inputs_read, inputs_turned};
ghost use Rattle.tilt_reading_feed.specs.Steps.{last_handed, turned};

use crate::fault_of::turn_of;
use tilt_conventions::{Converter, Turn};
use tilt_feed::{Event, Update};
use tilt_reading_lines::InputReading;

// Appends updates as events of the input with a number, for which there is room.
fn append_events(number: u32, updates: &[Update], events: &mut Vec<Event>)
    requires room { vec_len events.old + length updates.now ≤ vec_capacity events.old }
    ensures events { events.new.items ≡ events.old.items ++ events_at number updates.now }
    ensures capacity { vec_capacity events.new ≡ vec_capacity events.old }
    ensures len { vec_len events.new ≡ vec_len events.old + length updates.now }
{
    for update in updates {
        events.push_reserved(Event::Input {
            input: number,
            update: *update,
        });
    }
}

// The input with a number takes a turn, by events for which there is room. A turn that isn't taken changes nothing, and so does one of no
// input. The updates are for its own use.
fn turn_at(
    converters: &mut [Converter],
    number: u32,
    turn: Turn,
    updates: &mut Vec<Update>,
    events: &mut Vec<Event>,
)
    requires spare { 4 ≤ vec_capacity updates.old }
    requires room { vec_len events.old + 4 ≤ vec_capacity events.old }
    ensures inputs { inputs_of converters.new ≡ inputs_turned number turn (inputs_of converters.old) }
    ensures events { events.new.items ≡ events.old.items ++ events_at number (handed_at number turn (inputs_of converters.old)) }
    ensures spare { 4 ≤ vec_capacity updates.new }
    ensures capacity { vec_capacity events.new ≡ vec_capacity events.old }
    ensures len { vec_len events.new ≤ vec_len events.old + 4 }
{
    let place = number as usize;
    if place < converters.len() {
        turn_one(&mut converters[place], number, turn, updates, events);
    }
}

// A converter takes a turn, as the one of the input with a number.
fn turn_one(
    converter: &mut Converter,
    number: u32,
    turn: Turn,
    updates: &mut Vec<Update>,
    events: &mut Vec<Event>,
)
    requires spare { 4 ≤ vec_capacity updates.old }
    requires room { vec_len events.old + 4 ≤ vec_capacity events.old }
    ensures input { input_of converter.new ≡ turned turn (input_of converter.old) }
    ensures events { events.new.items ≡ events.old.items ++ events_at number (handed turn (input_of converter.old)) }
    ensures spare { 4 ≤ vec_capacity updates.new }
    ensures capacity { vec_capacity events.new ≡ vec_capacity events.old }
    ensures len { vec_len events.new ≤ vec_len events.old + 4 }
{
    updates.clear();
    if converter.take(turn, updates).is_ok() {
        append_events(number, updates, events);
    }
}

// Each reading is taken by its input, by events for which there is room.
pub(crate) fn read_each(
    converters: &mut [Converter],
    readings: &[InputReading],
    updates: &mut Vec<Update>,
    events: &mut Vec<Event>,
)
    requires spare { 4 ≤ vec_capacity updates.old }
    requires room { vec_len events.old + 4 * length readings.now ≤ vec_capacity events.old }
    ensures inputs { inputs_of converters.new ≡ inputs_read readings.now (inputs_of converters.old) }
    ensures events { events.new.items ≡ events.old.items ++ events_read readings.now (inputs_of converters.old) }
    ensures spare { 4 ≤ vec_capacity updates.new }
    ensures capacity { vec_capacity events.new ≡ vec_capacity events.old }
    ensures len { vec_len events.new ≤ vec_len events.old + 4 * length readings.now }
{
    for reading in readings {
        turn_at(
            converters,
            reading.input,
            turn_of(*reading),
            updates,
            events,
        );
    }
}

// All inputs take a turn, by events for which there is room.
pub(crate) fn turn_all(
    converters: &mut [Converter],
    turn: Turn,
    updates: &mut Vec<Update>,
    events: &mut Vec<Event>,
)
    requires few { length converters.old < 2 ^ 32 }
    requires spare { 4 ≤ vec_capacity updates.old }
    requires room { vec_len events.old + 4 * length converters.old ≤ vec_capacity events.old }
    ensures inputs { inputs_of converters.new ≡ map (turned turn) (inputs_of converters.old) }
    ensures events { events.new.items ≡ events.old.items ++ events_each (handed turn) 0 (inputs_of converters.old) }
    ensures spare { 4 ≤ vec_capacity updates.new }
    ensures capacity { vec_capacity events.new ≡ vec_capacity events.old }
    ensures len { vec_len events.new ≤ vec_len events.old + 4 * length converters.old }
{
    for place in 0..converters.len() {
        turn_at(converters, place as u32, turn, updates, events);
    }
}

// All inputs hand on what they do when nothing more comes, by events for which there is room.
pub(crate) fn finish_all(
    converters: &[Converter],
    updates: &mut Vec<Update>,
    events: &mut Vec<Event>,
)
    requires few { length converters.now < 2 ^ 32 }
    requires spare { 4 ≤ vec_capacity updates.old }
    requires room { vec_len events.old + 3 * length converters.now ≤ vec_capacity events.old }
    ensures events { events.new.items ≡ events.old.items ++ events_each last_handed 0 (inputs_of converters.now) }
    ensures spare { 4 ≤ vec_capacity updates.new }
    ensures capacity { vec_capacity events.new ≡ vec_capacity events.old }
    ensures len { vec_len events.new ≤ vec_len events.old + 3 * length converters.now }
{
    for place in 0..converters.len() {
        finish_one(&converters[place], place as u32, updates, events);
    }
}

// The input with a number hands on what it does when nothing more comes, by events for which there is room.
fn finish_one(
    converter: &Converter,
    number: u32,
    updates: &mut Vec<Update>,
    events: &mut Vec<Event>,
)
    requires spare { 4 ≤ vec_capacity updates.old }
    requires room { vec_len events.old + 3 ≤ vec_capacity events.old }
    ensures events { events.new.items ≡ events.old.items ++ events_at number (last_handed (input_of converter.now)) }
    ensures spare { 4 ≤ vec_capacity updates.new }
    ensures capacity { vec_capacity events.new ≡ vec_capacity events.old }
    ensures len { vec_len events.new ≤ vec_len events.old + 3 }
{
    updates.clear();
    if converter.finish(updates).is_ok() {
        append_events(number, updates, events);
    }
}
