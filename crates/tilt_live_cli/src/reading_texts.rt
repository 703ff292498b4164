// The texts of the options of readings, and what they say.
ghost use Rattle.std.specs.Prelude.{◌≡◌, List, None, Option, MatchResult, codes, option_map, string_bytes};
ghost use Rattle.tilt_cli.specs.Arguments.{arguments_of};
ghost use Rattle.tilt_cli.specs.declared.fault.WordsFault.TheVariants.{Usage};
ghost use Rattle.tilt_cli.specs.Options.{set_to};
ghost use Rattle.tilt_input_scales.specs.Scales.{ScalesValue};
ghost use Rattle.tilt_live_cli.specs.Readings.{AreBounds, AreInUnits, AreSaid, LeavesAllBut, LeavesFiles, column_options, mark_options};
ghost use Rattle.tilt_live_cli.specs.Readings.{meaning_options, moment_options, reading_texts, text_at};
ghost use Rattle.tilt_reading_options.specs.Values.{ChoiceValue};
ghost use Rattle.tilt_unit_report.specs.declared.bound.InputBound.{InputBound};

use std::alloc::Global;
use tilt_cli::{Arguments, WordsFault};
use tilt_input_scales::Scales;
use tilt_reading_options::{
    ChoiceFault, ReadingChoice, ReadingTexts, read_choice, read_input_scales,
};
use tilt_unit_check::read_bounds;
use tilt_unit_report::InputBound;

// The columns of names and values.
#[derive(Drop)]
struct Columns {
    name: Option<String>,
    value: Option<String>,
}

// Of moments: the ticks, and how they are written.
#[derive(Drop)]
struct Moments {
    tick: Option<String>,
    origin: Option<String>,
    unit: Option<String>,
    zone: Option<String>,
    fold: Option<String>,
}

// What readings mean.
#[derive(Drop)]
struct Meanings {
    scale: Option<String>,
    events: Option<String>,
    max_age: Option<String>,
    closed: Option<String>,
    ties: Option<String>,
}

// What is written in lines.
#[derive(Drop)]
struct Marks {
    null: Option<String>,
    delimiter: Option<String>,
    decimal: Option<String>,
}

// What the texts say, if there are some.
pub(crate) fn read_readings(
    alloc: Global,
    texts: Option<ReadingTexts>,
) -> Result<Option<ReadingChoice>, WordsFault>
    ensures { MatchResult result
        (λ readings. AreSaid texts readings)
        (λ fault. fault ≡ Usage → (readings : Option ChoiceValue) → ¬ (AreSaid texts readings)) }
{
    let Some(texts) = texts else {
        return Ok(None);
    };
    match read_choice(alloc, texts) {
        Ok(choice) => Ok(Some(choice)),
        Err(ChoiceFault::Bad { .. }) => Err(WordsFault::Usage),
        Err(ChoiceFault::OutOfMemory) => Err(WordsFault::OutOfMemory),
    }
}

// The scales of the inputs that a text says, if the query is in units.
pub(crate) fn read_units(
    alloc: Global,
    in_units: bool,
    text: &Option<String>,
) -> Result<Option<Scales>, WordsFault>
    ensures { MatchResult result
        (λ units. AreInUnits in_units (option_map (λ text. string_bytes text) text.now) units)
        (λ fault. fault ≡ Usage → (units : Option ScalesValue)
        → ¬ (AreInUnits in_units (option_map (λ text. string_bytes text) text.now) units)) }
{
    if !in_units {
        return Ok(None);
    }
    match read_input_scales(alloc, text) {
        Ok(scales) => Ok(Some(scales)),
        Err(ChoiceFault::Bad { .. }) => Err(WordsFault::Usage),
        Err(ChoiceFault::OutOfMemory) => Err(WordsFault::OutOfMemory),
    }
}

// What a text says of the inputs of a query in units with these scales, if it is asked for.
pub(crate) fn read_known(
    alloc: Global,
    asked: bool,
    units: &Option<Scales>,
    text: &Option<String>,
) -> Result<Option<Vec<InputBound>>, WordsFault>
    ensures { MatchResult result
        (λ bounds. AreBounds asked units.now (option_map (λ text. string_bytes text) text.now) (option_map (λ all. all.items) bounds))
        (λ fault. fault ≡ Usage → (bounds : Option (List InputBound))
        → ¬ (AreBounds asked units.now (option_map (λ text. string_bytes text) text.now) bounds)) }
{
    if !asked {
        return Ok(None);
    }
    let Some(scales) = units else {
        return Err(WordsFault::Usage);
    };
    match read_bounds(alloc, scales, text)? {
        Some(bounds) => Ok(Some(bounds)),
        None => Err(WordsFault::Usage),
    }
}

// The texts of the options of readings, if there is a column of times. These options are taken out.
pub(crate) fn take_reading_texts(given: &mut Arguments) -> Option<ReadingTexts>
    ensures texts { result ≡ reading_texts (arguments_of given.old).settings }
    ensures files { LeavesFiles (arguments_of given.old).settings (arguments_of given.new).settings }
    ensures rows { result ≡ None → set_to (codes "--scale") (arguments_of given.new).settings
        ≡ set_to (codes "--scale") (arguments_of given.old).settings }
{
    let event = given.has("--event");
    let skips_empty = given.has("--skip-empty");
    let Some(time) = given.remove_text("--time") else {
        return None;
    };
    let columns = take_columns(given);
    let moments = take_moments(given);
    let meanings = take_meanings(given);
    let marks = take_marks(given);
    Some(ReadingTexts {
        time,
        name: columns.name,
        value: columns.value,
        tick: moments.tick,
        origin: moments.origin,
        unit: moments.unit,
        zone: moments.zone,
        fold: moments.fold,
        scale: meanings.scale,
        event,
        events: meanings.events,
        max_age: meanings.max_age,
        closed: meanings.closed,
        ties: meanings.ties,
        null: marks.null,
        skips_empty,
        delimiter: marks.delimiter,
        decimal: marks.decimal,
    })
}

// Takes out the columns.
fn take_columns(given: &mut Arguments) -> Columns
    ensures name { option_map (λ text. string_bytes text) result.name ≡ text_at (codes "--name") (arguments_of given.old).settings }
    ensures value { option_map (λ text. string_bytes text) result.value ≡ text_at (codes "--value") (arguments_of given.old).settings }
    ensures others { LeavesAllBut column_options (arguments_of given.old).settings (arguments_of given.new).settings }
{
    let name = given.remove_text("--name");
    let value = given.remove_text("--value");
    Columns { name, value }
}

// Takes out the ticks, and how moments are written.
fn take_moments(given: &mut Arguments) -> Moments
    ensures tick { option_map (λ text. string_bytes text) result.tick ≡ text_at (codes "--tick") (arguments_of given.old).settings }
    ensures origin { option_map (λ text. string_bytes text) result.origin ≡ text_at (codes "--origin") (arguments_of given.old).settings }
    ensures unit { option_map (λ text. string_bytes text) result.unit ≡ text_at (codes "--unit") (arguments_of given.old).settings }
    ensures zone { option_map (λ text. string_bytes text) result.zone ≡ text_at (codes "--zone") (arguments_of given.old).settings }
    ensures fold { option_map (λ text. string_bytes text) result.fold ≡ text_at (codes "--fold") (arguments_of given.old).settings }
    ensures others { LeavesAllBut moment_options (arguments_of given.old).settings (arguments_of given.new).settings }
{
    let tick = given.remove_text("--tick");
    let origin = given.remove_text("--origin");
    let unit = given.remove_text("--unit");
    let zone = given.remove_text("--zone");
    let fold = given.remove_text("--fold");
    Moments {
        tick,
        origin,
        unit,
        zone,
        fold,
    }
}

// Takes out what readings mean.
fn take_meanings(given: &mut Arguments) -> Meanings
    ensures scale { option_map (λ text. string_bytes text) result.scale ≡ text_at (codes "--scale") (arguments_of given.old).settings }
    ensures events { option_map (λ text. string_bytes text) result.events ≡ text_at (codes "--events") (arguments_of given.old).settings }
    ensures max_age { option_map (λ text. string_bytes text) result.max_age
        ≡ text_at (codes "--max-age") (arguments_of given.old).settings }
    ensures closed { option_map (λ text. string_bytes text) result.closed ≡ text_at (codes "--closed") (arguments_of given.old).settings }
    ensures ties { option_map (λ text. string_bytes text) result.ties ≡ text_at (codes "--ties") (arguments_of given.old).settings }
    ensures others { LeavesAllBut meaning_options (arguments_of given.old).settings (arguments_of given.new).settings }
{
    let scale = given.remove_text("--scale");
    let events = given.remove_text("--events");
    let max_age = given.remove_text("--max-age");
    let closed = given.remove_text("--closed");
    let ties = given.remove_text("--ties");
    Meanings {
        scale,
        events,
        max_age,
        closed,
        ties,
    }
}

// Takes out what is written in lines.
fn take_marks(given: &mut Arguments) -> Marks
    ensures null { option_map (λ text. string_bytes text) result.null ≡ text_at (codes "--null") (arguments_of given.old).settings }
    ensures delimiter { option_map (λ text. string_bytes text) result.delimiter
        ≡ text_at (codes "--delimiter") (arguments_of given.old).settings }
    ensures decimal { option_map (λ text. string_bytes text) result.decimal
        ≡ text_at (codes "--decimal") (arguments_of given.old).settings }
    ensures others { LeavesAllBut mark_options (arguments_of given.old).settings (arguments_of given.new).settings }
{
    let null = given.remove_text("--null");
    let delimiter = given.remove_text("--delimiter");
    let decimal = given.remove_text("--decimal");
    Marks {
        null,
        delimiter,
        decimal,
    }
}
