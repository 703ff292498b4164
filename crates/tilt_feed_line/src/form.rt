// From the fields of a line to what they say.
ghost use Rattle.std.specs.Prelude.{◌≡◌, ◌<◌, ◌^◌, length};
ghost use Rattle.std.specs.List.{position};
ghost use Rattle.std.specs.Str.{bytes_eq};
ghost use Rattle.tilt_feed_line.specs.Lines.{all_keys_said, all_known_said, form_said, input_named, keyed_form_said, known_said};
ghost use Rattle.tilt_feed_line.specs.Lines.{no_value_said, row_said, value_said};

use crate::fault::LineFault;
use crate::key::Key;
use crate::line::{KeyedLine, Line};
use tilt_base::{read_cell, read_number};
use tilt_feed::Update;
use tilt_lexer::Name;

// The fields of a line after its key, if it has one.
#[derive(Clone, Copy)]
pub(crate) struct Fields<'a> {
    pub(crate) name: &'a [u8],
    pub(crate) start: &'a [u8],
    pub(crate) end: &'a [u8],
    pub(crate) value: &'a [u8],
}

// What a key and the fields after it say.
pub(crate) fn read_keyed_line<'a>(
    inputs: &[Name],
    key: &'a [u8],
    fields: &Fields<'_>,
) -> Result<KeyedLine<'a>, LineFault>
    requires { length inputs.now < 2 ^ 32 }
    ensures { result ≡ keyed_form_said inputs.now key.now
        fields.now.name.now fields.now.start.now fields.now.end.now fields.now.value.now }
{
    match Key::new(key) {
        None => read_all_keys(fields),
        Some(key) => {
            let line = read_line(inputs, fields)?;
            Ok(KeyedLine::OfKey { key, line })
        }
    }
}

// The watermark of all keys.
fn read_all_keys<'a>(fields: &Fields<'_>) -> Result<KeyedLine<'a>, LineFault>
    ensures { result ≡ all_keys_said fields.now.name.now fields.now.start.now fields.now.end.now fields.now.value.now }
{
    let Fields {
        name,
        start,
        end,
        value,
    } = *fields;
    if !name.is_empty() || !start.is_empty() || end.is_empty() || !value.is_empty() {
        return Err(LineFault::NoForm);
    }
    let watermark = read_number(end).ok_or(LineFault::BadEnd)?;
    Ok(KeyedLine::AllKnownUpTo { watermark })
}

// What the fields of a line without a key say, or those after the key.
pub(crate) fn read_line(inputs: &[Name], fields: &Fields<'_>) -> Result<Line, LineFault>
    requires { length inputs.now < 2 ^ 32 }
    ensures { result ≡ form_said inputs.now fields.now.name.now fields.now.start.now fields.now.end.now fields.now.value.now }
{
    let Fields {
        name,
        start,
        end,
        value,
    } = *fields;
    match (
        name.is_empty(),
        start.is_empty(),
        end.is_empty(),
        value.is_empty(),
    ) {
        (true, true, true, true) => Ok(Line::Finish),
        (true, true, false, true) => read_all_known(end),
        (false, true, false, true) => read_known(inputs, name, end),
        (false, false, true, true) => read_no_value(inputs, name, start),
        (false, false, true, false) => read_value(inputs, name, start, value),
        (false, false, false, _) => read_row(inputs, fields),
        _ => Err(LineFault::NoForm),
    }
}

// A row, whose value may be empty.
fn read_row(inputs: &[Name], fields: &Fields<'_>) -> Result<Line, LineFault>
    requires { length inputs.now < 2 ^ 32 }
    ensures { result ≡ row_said inputs.now fields.now.name.now fields.now.start.now fields.now.end.now fields.now.value.now }
{
    let input = find_input(inputs, fields.name)?;
    let start = read_number(fields.start).ok_or(LineFault::BadStart)?;
    let end = read_number(fields.end).ok_or(LineFault::BadEnd)?;
    let value = read_cell(fields.value).ok_or(LineFault::BadValue)?;
    let update = Update::Row { start, end, value };
    Ok(Line::Update { input, update })
}

// A value whose end isn't known yet.
fn read_value(inputs: &[Name], name: &[u8], start: &[u8], value: &[u8]) -> Result<Line, LineFault>
    requires { length inputs.now < 2 ^ 32 }
    ensures { result ≡ value_said inputs.now name.now start.now value.now }
{
    let input = find_input(inputs, name)?;
    let start = read_number(start).ok_or(LineFault::BadStart)?;
    let value = read_number(value).ok_or(LineFault::BadValue)?;
    let update = Update::Value { start, value };
    Ok(Line::Update { input, update })
}

// No value, up to an end that isn't known yet.
fn read_no_value(inputs: &[Name], name: &[u8], start: &[u8]) -> Result<Line, LineFault>
    requires { length inputs.now < 2 ^ 32 }
    ensures { result ≡ no_value_said inputs.now name.now start.now }
{
    let input = find_input(inputs, name)?;
    let start = read_number(start).ok_or(LineFault::BadStart)?;
    let update = Update::NoValue { start };
    Ok(Line::Update { input, update })
}

// The watermark of one input.
fn read_known(inputs: &[Name], name: &[u8], end: &[u8]) -> Result<Line, LineFault>
    requires { length inputs.now < 2 ^ 32 }
    ensures { result ≡ known_said inputs.now name.now end.now }
{
    let input = find_input(inputs, name)?;
    let watermark = read_number(end).ok_or(LineFault::BadEnd)?;
    let update = Update::KnownUpTo { watermark };
    Ok(Line::Update { input, update })
}

// The watermark of all inputs.
fn read_all_known(end: &[u8]) -> Result<Line, LineFault>
    ensures { result ≡ all_known_said end.now }
{
    let watermark = read_number(end).ok_or(LineFault::BadEnd)?;
    Ok(Line::AllKnownUpTo { watermark })
}

// The number of the input with the name, counted from 0.
pub(crate) fn find_input(inputs: &[Name], name: &[u8]) -> Result<u32, LineFault>
    requires { length inputs.now < 2 ^ 32 }
    ensures { result ≡ input_named inputs.now name.now }
{
    let at = place_of(inputs, name).ok_or(LineFault::UnknownInput)?;
    Ok(at as u32)
}

// The place of the name among those of the inputs.
fn place_of(inputs: &[Name], name: &[u8]) -> Option<usize>
    ensures { result ≡ position (bytes_eq name.now) inputs.now }
{
    inputs.iter().position(|input| name == input.bytes())
}
