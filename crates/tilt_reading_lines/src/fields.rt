// From the fields of a record to what they say.
ghost use Rattle.std.specs.Prelude.{◌≡◌, ◌<◌, ◌<ℤ◌, ◌^◌, ◌++◌, [], get_or, length, neg_ℤ, OnOk};
ghost use Rattle.std.specs.Option.{ForSome};
ghost use Rattle.tilt_base.specs.declared.limits.TheConstants.{T};
ghost use Rattle.tilt_reading_lines.specs.LineFields.{fields_in};
ghost use Rattle.tilt_reading_lines.specs.Lines.{Fills, Gives, appended, each_reading, fields_said, known_said, listed, named_said};
ghost use Rattle.tilt_reading_lines.specs.Lines.{reading_said, source_named};
ghost use Rattle.tilt_reading_lines.specs.Lines.{named_reading, values_said};
ghost use Rattle.tilt_reading_lines.specs.Rules.{layout_of, values_of};

use crate::columns::{Columns, ValueColumns};
use crate::fault::{LineFault, ReadLineFault};
use crate::line_fields::LineFields;
use crate::rules::{InputReading, Rules, Source};
use crate::tick::read_tick;
use crate::value::read_reading;
use std::alloc::AllocError as OutOfMemory;

// What the fields say: the readings are appended, and the result is a tick up to which all inputs are known, if they say that.
pub(crate) fn read_said(
    fields: &LineFields<'_>,
    columns: &Columns,
    rules: &Rules,
    sources: &[Source],
    readings: &mut Vec<InputReading>,
) -> Result<Option<i64>, ReadLineFault>
    requires few { length sources.now < 2 ^ 32 }
    requires empty { readings.old.items ≡ [] }
    ensures { Gives result readings.new.items (fields_said (layout_of columns.now) rules.now sources.now (fields_in fields.now)) }
{
    let count = columns.count;
    if fields.len() != count {
        return Err(ReadLineFault::BadLine(LineFault::FieldCount { expected: count }));
    }
    let tick = read_tick(rules, fields.at(columns.time))?;
    read_values(fields, &columns.values, rules, sources, tick, readings)
}

// What the values of a record say.
fn read_values(
    fields: &LineFields<'_>,
    values: &ValueColumns,
    rules: &Rules,
    sources: &[Source],
    tick: i64,
    readings: &mut Vec<InputReading>,
) -> Result<Option<i64>, ReadLineFault>
    requires few { length sources.now < 2 ^ 32 }
    requires empty { readings.old.items ≡ [] }
    requires low { neg_ℤ T <ℤ tick }
    ensures { Gives result readings.new.items (values_said rules.now sources.now (fields_in fields.now) tick (values_of values.now)) }
{
    match values {
        ValueColumns::Named { name, value } => {
            let (name, value) = (fields.at(*name), fields.at(*value));
            read_named(rules, sources, tick, name, value, readings)
        }
        ValueColumns::OfInputs { places } => {
            match read_each(fields, places, rules, sources, tick, readings) {
                Ok(()) => Ok(None),
                Err(fault) => Err(fault),
            }
        }
    }
}

// What a name and a value say.
fn read_named(
    rules: &Rules,
    sources: &[Source],
    tick: i64,
    name: &[u8],
    value: &[u8],
    readings: &mut Vec<InputReading>,
) -> Result<Option<i64>, ReadLineFault>
    requires few { length sources.now < 2 ^ 32 }
    requires empty { readings.old.items ≡ [] }
    requires low { neg_ℤ T <ℤ tick }
    ensures { Gives result readings.new.items (named_said rules.now sources.now tick name.now value.now) }
{
    if name.is_empty() {
        return Ok(Some(read_no_name(tick, value)?));
    }
    let found = find_source(sources, name);
    let reading = read_found(rules, tick, found, value)?;
    push_some(reading, readings)?;
    Ok(None)
}

// The tick up to which all inputs are known by a record without a name.
fn read_no_name(tick: i64, value: &[u8]) -> Result<i64, LineFault>
    requires { neg_ℤ T <ℤ tick }
    ensures { result ≡ known_said tick value.now }
{
    if value.is_empty() {
        Ok(tick - 1)
    } else {
        Err(LineFault::NoName)
    }
}

// A reading of the input that was named.
fn read_found(
    rules: &Rules,
    tick: i64,
    found: Option<(u32, u64)>,
    value: &[u8],
) -> Result<Option<InputReading>, LineFault>
    requires { ForSome found (λ source. 0 < source.1) }
    ensures { result ≡ named_reading rules.now tick value.now found }
{
    match found {
        Some((input, scale)) => read_reading(rules, tick, input, scale, value),
        None => Ok(None),
    }
}

// The number and the scale of the first input that has a name.
fn find_source(sources: &[Source], name: &[u8]) -> Option<(u32, u64)>
    requires { length sources.now < 2 ^ 32 }
    ensures found { result ≡ source_named name.now 0 sources.now }
    ensures scale { ForSome result (λ source. 0 < source.1) }
{
    for input in 0..sources.len() {
        let source = &sources[input];
        if name == source.name.bytes() {
            return Some((input as u32, source.scale));
        }
    }
    None
}

// The readings of the inputs, whose values are at these places.
fn read_each(
    fields: &LineFields<'_>,
    places: &[usize],
    rules: &Rules,
    sources: &[Source],
    tick: i64,
    readings: &mut Vec<InputReading>,
) -> Result<(), ReadLineFault>
    requires few { length sources.now < 2 ^ 32 }
    requires empty { readings.old.items ≡ [] }
    ensures { Fills result readings.new.items (each_reading rules.now (fields_in fields.now) tick 0 sources.now places.now) }
{
    for input in 0..sources.len().min(places.len()) {
        let text = fields.at(places[input]);
        let source = &sources[input];
        match take_reading(rules, tick, input as u32, source, text, readings) {
            Ok(()) => {}
            Err(fault) => return Err(fault),
        }
    }
    Ok(())
}

// Appends the reading of an input that a text is.
fn take_reading(
    rules: &Rules,
    tick: i64,
    input: u32,
    source: &Source,
    text: &[u8],
    readings: &mut Vec<InputReading>,
) -> Result<(), ReadLineFault>
    ensures { Fills result readings.new.items
        (appended readings.old.items (reading_said rules.now tick input source.now.scale text.now)) }
{
    match read_reading(rules, tick, input, source.scale, text) {
        Ok(reading) => Ok(push_some(reading, readings)?),
        Err(fault) => Err(ReadLineFault::BadLine(fault)),
    }
}

// Appends a reading, if there is one.
fn push_some(
    reading: Option<InputReading>,
    readings: &mut Vec<InputReading>,
) -> Result<(), OutOfMemory>
    ensures { OnOk result (readings.new.items ≡ readings.old.items ++ listed reading) }
{
    if let Some(reading) = reading {
        readings.push(reading)?;
    }
    Ok(())
}
