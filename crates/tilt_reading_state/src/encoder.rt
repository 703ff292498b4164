// The spelling of what is kept of a text of readings.
ghost use Rattle.std.specs.Prelude.{◌≡◌, ◌++◌, flat_map, OnOk, option_map, Some};
ghost use Rattle.std.specs.Fmt.{decimal};
ghost use Rattle.tilt_checkpoint.specs.Spelling.{time_text};
ghost use Rattle.tilt_live_state.specs.Spelling.{field, flag_text, line, open_start, open_value};
ghost use Rattle.tilt_reading_lines.specs.Rules.{layout_of, values_of};
ghost use Rattle.tilt_reading_state.specs.Spelling.{edge_fields, header_lines, input_line, latest_fields, latest_tick, latest_value};
ghost use Rattle.tilt_reading_state.specs.Spelling.{layout_lines, place_line, readings_lines, spelled_kept, values_lines};

use std::alloc::AllocError as OutOfMemory;
use tilt_conventions::{KeptConverter, Reading};
use tilt_feed::{Edge, OpenRow};
use tilt_reading_feed::KeptReadings;
use tilt_reading_lines::{Columns, ValueColumns};
use tilt_reading_text::KeptText;
use tilt_text::{put, put_number};

/// Appends the spelling of what is kept to a text, as `specs/Spelling` says it. If memory runs out, what was there before is still there,
/// and a part of the spelling may be after it.
pub fn encode_kept(kept: &KeptText, text: &mut Vec<u8>) -> Result<(), OutOfMemory>
    ensures { OnOk result (text.new.items ≡ text.old.items ++ spelled_kept kept.now) }
{
    put_header(text, &kept.columns)?;
    put_readings(text, &kept.readings)
}

// Appends the lines of the columns, or that there are none.
fn put_header(text: &mut Vec<u8>, columns: &Option<Columns>) -> Result<(), OutOfMemory>
    ensures { OnOk result (text.new.items ≡ text.old.items ++ header_lines (option_map layout_of columns.now)) }
{
    match columns {
        Some(columns) => put_columns(text, columns),
        None => put(text, b"no columns\n"),
    }
}

// Appends the lines of columns.
fn put_columns(text: &mut Vec<u8>, columns: &Columns) -> Result<(), OutOfMemory>
    ensures { OnOk result (text.new.items ≡ text.old.items ++ layout_lines (layout_of columns.now)) }
{
    put_count(text, b"columns", columns.count as u64, b' ')?;
    put_count(text, b"time", columns.time as u64, b' ')?;
    put_values(text, &columns.values)
}

// Appends where values are.
fn put_values(text: &mut Vec<u8>, values: &ValueColumns) -> Result<(), OutOfMemory>
    ensures { OnOk result (text.new.items ≡ text.old.items ++ values_lines (values_of values.now)) }
{
    match values {
        ValueColumns::Named { name, value } => {
            put_count(text, b"named", *name as u64, b' ')?;
            put_count(text, b"value", *value as u64, b'\n')
        }
        ValueColumns::OfInputs { places } => {
            put_count(text, b"places", places.len() as u64, b'\n')?;
            put_places(text, places)
        }
    }
}

// Appends the lines of places.
fn put_places(text: &mut Vec<u8>, places: &[usize]) -> Result<(), OutOfMemory>
    ensures { OnOk result (text.new.items ≡ text.old.items ++ flat_map place_line places.now) }
{
    for place in places {
        put_count(text, b"place", *place as u64, b'\n')?;
    }
    Ok(())
}

// Appends the lines of what is kept of a feed.
fn put_readings(text: &mut Vec<u8>, readings: &KeptReadings) -> Result<(), OutOfMemory>
    ensures { OnOk result (text.new.items ≡ text.old.items ++ readings_lines readings.now) }
{
    put_flag(text, b"finished", readings.finished)?;
    put_count(text, b"inputs", readings.inputs.len() as u64, b'\n')?;
    put_inputs(text, &readings.inputs)
}

// Appends the lines of all inputs.
fn put_inputs(text: &mut Vec<u8>, inputs: &[KeptConverter]) -> Result<(), OutOfMemory>
    ensures { OnOk result (text.new.items ≡ text.old.items ++ flat_map input_line inputs.now) }
{
    for input in inputs {
        put_input(text, input)?;
    }
    Ok(())
}

// Appends the line of an input.
fn put_input(text: &mut Vec<u8>, input: &KeptConverter) -> Result<(), OutOfMemory>
    ensures { OnOk result (text.new.items ≡ text.old.items ++ input_line input.now) }
{
    put_edge(text, input.edge)?;
    put_time(text, b"mark", Some(input.mark), b' ')?;
    put_latest(text, input.latest)?;
    put_count(text, b"skipped", input.skipped, b'\n')
}

// Appends the fields of an edge.
fn put_edge(text: &mut Vec<u8>, edge: Edge) -> Result<(), OutOfMemory>
    ensures { OnOk result (text.new.items ≡ text.old.items ++ edge_fields edge) }
{
    put_time(text, b"watermark", Some(edge.watermark), b' ')?;
    put_time(text, b"open", open_start(edge.open_row), b' ')?;
    put_time(text, b"value", open_value(edge.open_row), b' ')
}

// Where an open row starts, if there is one.
fn open_start(row: Option<OpenRow>) -> Option<i64>
    ensures { result ≡ open_start row }
{
    Some(row?.start)
}

// Its value.
fn open_value(row: Option<OpenRow>) -> Option<i64>
    ensures { result ≡ open_value row }
{
    Some(row?.value)
}

// Appends the fields of the latest reading.
fn put_latest(text: &mut Vec<u8>, latest: Option<Reading>) -> Result<(), OutOfMemory>
    ensures { OnOk result (text.new.items ≡ text.old.items ++ latest_fields latest) }
{
    put_time(text, b"latest", latest_tick(latest), b' ')?;
    put_time(text, b"reading", latest_value(latest), b' ')
}

// The tick of a reading, if there is one.
fn latest_tick(latest: Option<Reading>) -> Option<i64>
    ensures { result ≡ latest_tick latest }
{
    Some(latest?.tick)
}

// Its value, if it has one.
fn latest_value(latest: Option<Reading>) -> Option<i64>
    ensures { result ≡ latest_value latest }
{
    latest?.value
}

// Appends a field of a count.
fn put_count(text: &mut Vec<u8>, word: &[u8], count: u64, mark: u8) -> Result<(), OutOfMemory>
    ensures { OnOk result (text.new.items ≡ text.old.items ++ field mark word.now (decimal count)) }
{
    put(text, word)?;
    put(text, b" ")?;
    put_number(text, count)?;
    put(text, &[mark])
}

// Appends a field of a time.
fn put_time(text: &mut Vec<u8>, word: &[u8], time: Option<i64>, mark: u8) -> Result<(), OutOfMemory>
    ensures { OnOk result (text.new.items ≡ text.old.items ++ field mark word.now (time_text time)) }
{
    put(text, word)?;
    put(text, b" ")?;
    put_time_or_none(text, time)?;
    put(text, &[mark])
}

// Appends a time, or `none`.
fn put_time_or_none(text: &mut Vec<u8>, time: Option<i64>) -> Result<(), OutOfMemory>
    ensures { OnOk result (text.new.items ≡ text.old.items ++ time_text time) }
{
    match time {
        Some(time) => put_number(text, time),
        None => put(text, b"none"),
    }
}

// Appends a field of a flag.
fn put_flag(text: &mut Vec<u8>, word: &[u8], flag: bool) -> Result<(), OutOfMemory>
    ensures { OnOk result (text.new.items ≡ text.old.items ++ line word.now (flag_text flag)) }
{
    put(text, word)?;
    if flag {
        put(text, b" yes\n")
    } else {
        put(text, b" no\n")
    }
}
