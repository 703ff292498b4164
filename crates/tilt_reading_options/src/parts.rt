// What the options of one kind say.
ghost use Rattle.std.specs.Prelude.{◌≡◌, ◌<◌, IfOk};
ghost use Rattle.tilt_reading_options.specs.Choice.{conventions_said, marks_said, nulls_said, scales_said, tick_rules_said, times_said};
ghost use Rattle.tilt_reading_options.specs.Choice.{titles_said};
ghost use Rattle.tilt_reading_options.specs.Results.{Says};
ghost use Rattle.tilt_reading_options.specs.Texts.{given};
ghost use Rattle.tilt_reading_options.specs.ZoneChoice.{zone_said};
ghost use Rattle.tilt_reading_lines.specs.Titles.{titles_of};

use crate::conventions::Conventions;
use crate::fault::ChoiceFault;
use crate::given::{
    add_events, make_titles, read_closed, read_delimiter, read_held, read_input_scales, read_mark,
    read_moments, read_origin, read_tick, read_ties,
};
use crate::reading_option::ReadingOption;
use crate::texts::ReadingTexts;
use crate::zone_choice::{ZoneChoice, read_zone_choice};
use std::alloc::{AllocError as OutOfMemory, Global};
use tilt_conventions::Ties;
use tilt_input_scales::Scales;
use tilt_reading_lines::{Moments, Titles};
use tilt_readings::Closed;

// How times are written, and what a clock needs of them.
#[derive(Clone, Copy)]
pub(crate) struct Times {
    pub(crate) tick: u64,
    pub(crate) origin: i128,
    pub(crate) moments: Moments,
}

// Which end belongs to a tick, and which of several readings in it counts.
#[derive(Clone, Copy)]
pub(crate) struct TickRules {
    pub(crate) closed: Closed,
    pub(crate) ties: Ties,
}

// The byte between fields, and the mark before a fraction.
#[derive(Clone, Copy)]
pub(crate) struct Marks {
    pub(crate) delimiter: u8,
    pub(crate) mark: u8,
}

// How the columns are titled.
pub(crate) fn read_titles(alloc: Global, texts: &ReadingTexts) -> Result<Titles, ChoiceFault>
    ensures { Says titles_of result (titles_said texts.now.time texts.now.name texts.now.value) }
{
    make_titles(alloc, &texts.time, &texts.name, &texts.value)
}

// What the options of times say.
pub(crate) fn read_times(texts: &ReadingTexts) -> Result<Times, ReadingOption>
    ensures value { result ≡ times_said texts.now }
    ensures some { IfOk result (λ times. 0 < times.tick) }
{
    let tick = read_tick(&texts.tick)?;
    let origin = read_origin(&texts.origin)?;
    let moments = read_moments(&texts.unit)?;
    Ok(Times {
        tick,
        origin,
        moments,
    })
}

// The scales of the inputs.
pub(crate) fn read_scales_of(alloc: Global, texts: &ReadingTexts) -> Result<Scales, ChoiceFault>
    ensures { Says (λ scales. scales) result (scales_said texts.now.scale) }
{
    read_input_scales(alloc, &texts.scale)
}

// How long the readings of each input hold, with ticks of a length.
pub(crate) fn read_conventions(
    alloc: Global,
    texts: &ReadingTexts,
    tick: u64,
) -> Result<Conventions, ChoiceFault>
    requires { 0 < tick }
    ensures { Says (λ conventions. conventions) result (conventions_said tick texts.now) }
{
    let held = read_held(alloc, texts.event, tick, &texts.max_age)?;
    add_events(alloc, texts.event, held, &texts.events)
}

// What the options of a tick say.
pub(crate) fn read_tick_rules(texts: &ReadingTexts) -> Result<TickRules, ReadingOption>
    ensures { result ≡ tick_rules_said texts.now }
{
    let closed = read_closed(&texts.closed)?;
    let ties = read_ties(&texts.ties)?;
    Ok(TickRules { closed, ties })
}

// What the options of the bytes of a line say.
pub(crate) fn read_marks(texts: &ReadingTexts) -> Result<Marks, ReadingOption>
    ensures { result ≡ marks_said texts.now }
{
    let delimiter = read_delimiter(&texts.delimiter)?;
    let mark = read_mark(delimiter, &texts.decimal)?;
    Ok(Marks { delimiter, mark })
}

// The zone of local times, if there is one.
pub(crate) fn read_zone_of(
    alloc: Global,
    texts: &ReadingTexts,
) -> Result<Option<ZoneChoice>, ChoiceFault>
    ensures { Says (λ zone. zone) result (zone_said texts.now.unit texts.now.zone texts.now.fold) }
{
    read_zone_choice(alloc, &texts.unit, &texts.zone, &texts.fold)
}

// The text of the texts without a value.
pub(crate) fn copy_nulls(alloc: Global, texts: &ReadingTexts) -> Result<Option<String>, OutOfMemory>
    ensures { IfOk result (λ nulls. given nulls ≡ texts.now.null) }
{
    match &texts.null {
        Some(text) => Ok(Some(String::from_str(alloc, text)?)),
        None => Ok(None),
    }
}

// Whether a text without a value is skipped.
pub(crate) fn skips_empty(texts: &ReadingTexts) -> bool
    ensures { result ≡ texts.now.skips_empty }
{
    texts.skips_empty
}
