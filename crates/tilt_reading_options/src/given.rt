// What each option says, by its text if it is given.
ghost use Rattle.std.specs.Prelude.{◌≡◌, ◌<◌, IfOk};
ghost use Rattle.tilt_reading_options.specs.Choice.{closed_said, delimiter_said, mark_beside, mark_said, moments_said};
ghost use Rattle.tilt_reading_options.specs.Choice.{origin_said, scales_said, tick_said, ties_said, titles_said};
ghost use Rattle.tilt_reading_options.specs.Holding.{ages_said, events_said};
ghost use Rattle.tilt_reading_options.specs.Results.{Says};
ghost use Rattle.tilt_reading_options.specs.Texts.{given};
ghost use Rattle.tilt_reading_lines.specs.Titles.{titles_of};

use crate::conventions::Conventions;
use crate::duration::read_duration;
use crate::fault::ChoiceFault;
use crate::part_reader::take_parts;
use crate::read_holding::{EventParts, are_events, read_ages};
use crate::read_scales::read_scales;
use crate::reading_option::ReadingOption;
use crate::words::{find_closed, find_delimiter, find_mark, find_ties, find_unit};
use std::alloc::Global;
use tilt_conventions::{Convention, Ties};
use tilt_input_scales::Scales;
use tilt_reading_lines::{Moments, Titles};
use tilt_readings::{Closed, read_date};

// How the columns are titled.
pub(crate) fn make_titles(
    alloc: Global,
    time: &str,
    name: &Option<String>,
    value: &Option<String>,
) -> Result<Titles, ChoiceFault>
    ensures { Says titles_of result (titles_said time.now (given name.now) (given value.now)) }
{
    match name {
        None => match value {
            None => Ok(Titles::OfInputs {
                time: time.as_bytes().to_vec(alloc)?,
            }),
            Some(_) => Err(ChoiceFault::Bad {
                option: ReadingOption::Name,
            }),
        },
        Some(name) => match value {
            None => Err(ChoiceFault::Bad {
                option: ReadingOption::Value,
            }),
            Some(value) => Ok(Titles::Named {
                time: time.as_bytes().to_vec(alloc)?,
                name: name.as_bytes().to_vec(alloc)?,
                value: value.as_bytes().to_vec(alloc)?,
            }),
        },
    }
}

// The length of a tick in nanoseconds.
pub(crate) fn read_tick(text: &Option<String>) -> Result<u64, ReadingOption>
    ensures value { result ≡ tick_said (given text.now) }
    ensures some { IfOk result (λ tick. 0 < tick) }
{
    match text {
        Some(text) => read_duration(text.as_bytes()).ok_or(ReadingOption::Tick),
        None => Err(ReadingOption::Tick),
    }
}

// The moment at which the tick 1 starts.
pub(crate) fn read_origin(text: &Option<String>) -> Result<i128, ReadingOption>
    ensures { result ≡ origin_said (given text.now) }
{
    match text {
        Some(text) => match read_date(text.as_bytes()) {
            Ok(moment) => Ok(moment),
            Err(_) => Err(ReadingOption::Origin),
        },
        None => Ok(0),
    }
}

// How moments are written.
pub(crate) fn read_moments(text: &Option<String>) -> Result<Moments, ReadingOption>
    ensures { result ≡ moments_said (given text.now) }
{
    match text {
        Some(text) => match find_unit(text.as_bytes()) {
            Some(unit) => Ok(Moments::Numbers { unit }),
            None => Err(ReadingOption::Unit),
        },
        None => Ok(Moments::Dates),
    }
}

/// The scales of inputs that the text of `--scale` says: one number for all inputs, or one for each name, as in `a=10,b=100`. Without a
/// text each is 1. `Bad` comes if the text says none. `OutOfMemory` comes if memory runs out, and for no other reason.
pub fn read_input_scales(alloc: Global, text: &Option<String>) -> Result<Scales, ChoiceFault>
    ensures { Says (λ scales. scales) result (scales_said (given text.now)) }
{
    match text {
        Some(text) => match read_scales(alloc, text)? {
            Some(scales) => Ok(scales),
            None => Err(ChoiceFault::Bad {
                option: ReadingOption::Scale,
            }),
        },
        None => Ok(Scales::new(alloc, 1)),
    }
}

// How long readings hold, with ticks of a length, if all of them are events or none is.
pub(crate) fn read_held(
    alloc: Global,
    event: bool,
    tick: u64,
    ages: &Option<String>,
) -> Result<Conventions, ChoiceFault>
    requires { 0 < tick }
    ensures { Says (λ conventions. conventions) result (ages_said event tick (given ages.now)) }
{
    match ages {
        Some(ages) if !event => match read_ages(alloc, ages, tick)? {
            Some(conventions) => Ok(conventions),
            None => Err(ChoiceFault::Bad {
                option: ReadingOption::MaxAge,
            }),
        },
        Some(_) => Err(ChoiceFault::Bad {
            option: ReadingOption::MaxAge,
        }),
        None if event => Ok(Conventions::new(alloc, Convention::Event)),
        None => Ok(Conventions::new(alloc, Convention::Hold { max_age: None })),
    }
}

// The same with the events of a text, if not all readings are events. None of them has an age of its own.
pub(crate) fn add_events(
    alloc: Global,
    event: bool,
    held: Conventions,
    events: &Option<String>,
) -> Result<Conventions, ChoiceFault>
    ensures { Says (λ conventions. conventions) result (events_said event held (given events.now)) }
{
    let Some(events) = events else {
        return Ok(held);
    };
    if event || !are_events(alloc, events)? {
        return Err(ChoiceFault::Bad {
            option: ReadingOption::Events,
        });
    }
    let mut conventions = held;
    if take_parts(alloc, &EventParts, events, &mut conventions)? {
        Ok(conventions)
    } else {
        Err(ChoiceFault::Bad {
            option: ReadingOption::MaxAge,
        })
    }
}

// Which end of a tick belongs to it.
pub(crate) fn read_closed(text: &Option<String>) -> Result<Closed, ReadingOption>
    ensures { result ≡ closed_said (given text.now) }
{
    match text {
        Some(text) => find_closed(text.as_bytes()).ok_or(ReadingOption::Closed),
        None => Ok(Closed::Left),
    }
}

// Which of several readings in one tick counts.
pub(crate) fn read_ties(text: &Option<String>) -> Result<Ties, ReadingOption>
    ensures { result ≡ ties_said (given text.now) }
{
    match text {
        Some(text) => find_ties(text.as_bytes()).ok_or(ReadingOption::Ties),
        None => Ok(Ties::Refuse),
    }
}

// The byte between fields.
pub(crate) fn read_delimiter(text: &Option<String>) -> Result<u8, ReadingOption>
    ensures { result ≡ delimiter_said (given text.now) }
{
    match text {
        Some(text) => find_delimiter(text.as_bytes()).ok_or(ReadingOption::Delimiter),
        None => Ok(b','),
    }
}

// The mark before the fraction of a number, with this byte between fields.
pub(crate) fn read_mark(delimiter: u8, text: &Option<String>) -> Result<u8, ReadingOption>
    ensures { result ≡ mark_said delimiter (given text.now) }
{
    match text {
        Some(text) => match find_mark(text.as_bytes()) {
            Some(mark) => mark_beside(delimiter, mark),
            None => Err(ReadingOption::Decimal),
        },
        None => mark_beside(delimiter, b'.'),
    }
}

// The mark, if it isn't the byte between fields.
fn mark_beside(delimiter: u8, mark: u8) -> Result<u8, ReadingOption>
    ensures { result ≡ mark_beside delimiter mark }
{
    if mark == delimiter {
        Err(ReadingOption::Decimal)
    } else {
        Ok(mark)
    }
}
