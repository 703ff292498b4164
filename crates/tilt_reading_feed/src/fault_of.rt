// Why lines aren't taken.
ghost use Rattle.std.specs.Prelude.{◌≡◌, None};
ghost use Rattle.tilt_feed.specs.Events.{is_time};
ghost use Rattle.tilt_reading_feed.specs.Machine.{inputs_of};
ghost use Rattle.tilt_reading_feed.specs.Steps.{comes_after, known_fault, reading_fault, readings_fault, turn_of};

use crate::fault::FeedFault;
use tilt_base::T;
use tilt_conventions::{Converter, Reading, Turn};
use tilt_reading_lines::InputReading;

// The first fault of readings, or `None` if all of them are taken.
pub(crate) fn readings_fault(
    converters: &[Converter],
    readings: &[InputReading],
) -> Option<FeedFault>
    ensures { result ≡ readings_fault (inputs_of converters.now) None readings.now }
{
    let mut before = None;
    for reading in readings {
        if let Some(fault) = reading_fault(converters, before, *reading) {
            return Some(fault);
        }
        before = Some(reading.input);
    }
    None
}

// Why a reading isn't taken that comes after one of another input, or `None` if it is.
fn reading_fault(
    converters: &[Converter],
    before: Option<u32>,
    reading: InputReading,
) -> Option<FeedFault>
    ensures { result ≡ reading_fault (inputs_of converters.now) before reading }
{
    let input = reading.input;
    if !comes_after(before, input) {
        return Some(FeedFault::Repeated { input });
    }
    match converters.get(input as usize) {
        Some(converter) => {
            let fault = converter.fault(turn_of(reading))?;
            Some(FeedFault::NotTaken { input, fault })
        }
        None => Some(FeedFault::NoInput { input }),
    }
}

// Whether an input comes after another one, if there is one.
fn comes_after(before: Option<u32>, input: u32) -> bool
    ensures { result ≡ comes_after before input }
{
    match before {
        Some(before) => before < input,
        None => true,
    }
}

// A reading of a line, as a turn of its input.
pub(crate) fn turn_of(reading: InputReading) -> Turn
    ensures { result ≡ turn_of reading }
{
    Turn::Reading {
        reading: Reading {
            tick: reading.tick,
            value: reading.value,
        },
    }
}

// Why inputs can't be known up to a tick, or `None` if they can.
pub(crate) fn known_fault(known: Option<i64>) -> Option<FeedFault>
    ensures { result ≡ known_fault known }
{
    let tick = known?;
    if -T <= tick && tick <= T {
        None
    } else {
        Some(FeedFault::OutOfRange)
    }
}
