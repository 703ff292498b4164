// Whether the numbers of what is kept fit.
ghost use Rattle.std.specs.Prelude.{◌≡◌, ◌↔◌, IsTrue, option_map};
ghost use Rattle.std.specs.List.{list_all};
ghost use Rattle.tilt_reading_lines.specs.Rules.{layout_of, values_of};
ghost use Rattle.tilt_reading_state.specs.Range.{are_places, has_numbers, is_cell, is_count, is_header, is_in_range, is_layout, is_number};
ghost use Rattle.tilt_reading_state.specs.Range.{is_open, is_reading};
ghost use Rattle.tilt_reading_state.specs.Valid.{IsInRange};

use tilt_base::Cell;
use tilt_conventions::{KeptConverter, Reading};
use tilt_feed::OpenRow;
use tilt_reading_lines::{Columns, ValueColumns};
use tilt_reading_text::KeptText;

/// Whether what is kept is read back from its spelling: its places and counts are below 2^63. Its other numbers are 64-bit numbers, so
/// their tests are always true.
pub fn is_in_range(kept: &KeptText) -> bool
    ensures { IsTrue result ↔ IsInRange kept.now }
{
    test_range(kept)
}

// The same, as a test.
fn test_range(kept: &KeptText) -> bool
    ensures { result ≡ is_in_range kept.now }
{
    is_header(&kept.columns) && have_numbers(&kept.readings.inputs)
}

// Whether the places of columns are below 2^63, if there are some.
fn is_header(columns: &Option<Columns>) -> bool
    ensures { result ≡ is_header (option_map layout_of columns.now) }
{
    match columns {
        None => true,
        Some(columns) => is_layout(columns),
    }
}

// Whether the places of columns are below 2^63.
fn is_layout(columns: &Columns) -> bool
    ensures { result ≡ is_layout (layout_of columns.now) }
{
    is_count(columns.count as u64) && is_count(columns.time as u64) && are_places(&columns.values)
}

// Whether the places of values are.
fn are_places(values: &ValueColumns) -> bool
    ensures { result ≡ are_places (values_of values.now) }
{
    match values {
        ValueColumns::Named { name, value } => is_count(*name as u64) && is_count(*value as u64),
        ValueColumns::OfInputs { places } => are_counts(places),
    }
}

// Whether all places are.
fn are_counts(places: &[usize]) -> bool
    ensures { result ≡ list_all is_count places.now }
{
    places.iter().all(|place| is_count(*place as u64))
}

// Whether what is kept of each input has 64-bit numbers, and its count is below 2^63.
fn have_numbers(inputs: &[KeptConverter]) -> bool
    ensures { result ≡ list_all has_numbers inputs.now }
{
    inputs.iter().all(|input| has_numbers(input))
}

// Whether what is kept of an input has.
fn has_numbers(input: &KeptConverter) -> bool
    ensures { result ≡ has_numbers input.now }
{
    is_number(input.edge.watermark)
        && is_open(input.edge.open_row)
        && is_number(input.mark)
        && is_reading(input.latest)
        && is_count(input.skipped)
}

// Whether an open row has 64-bit numbers.
fn is_open(row: Option<OpenRow>) -> bool
    ensures { result ≡ is_open row }
{
    match row {
        None => true,
        Some(row) => is_number(row.start) && is_number(row.value),
    }
}

// Whether a reading has.
fn is_reading(latest: Option<Reading>) -> bool
    ensures { result ≡ is_reading latest }
{
    match latest {
        None => true,
        Some(reading) => is_number(reading.tick) && is_cell(reading.value),
    }
}

// Whether a value is a 64-bit number, if it isn't null.
fn is_cell(value: Cell) -> bool
    ensures { result ≡ is_cell value }
{
    match value {
        None => true,
        Some(value) => is_number(value),
    }
}

// Whether a place or a count is below 2^63.
fn is_count(count: u64) -> bool
    ensures { result ≡ is_count count }
{
    count < 1 << 63
}

// Whether this is a 64-bit number. It always is.
fn is_number(_number: i64) -> bool
    ensures { result ≡ is_number _number }
{
    true
}
