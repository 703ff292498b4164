// Whether the numbers of a state fit.
ghost use Rattle.std.specs.Prelude.{◌≡◌, ◌↔◌, IsTrue};
ghost use Rattle.std.specs.List.{list_all};
ghost use Rattle.tilt_live_state.specs.Range.{has_counts, has_numbers, is_cell, is_in_range, is_number, is_open, is_ticks, is_update};
ghost use Rattle.tilt_live_state.specs.Valid.{IsInRange};

use crate::progress::Progress;
use crate::state::{InputState, LiveState};
use tilt_base::Cell;
use tilt_feed::{OpenRow, Update};
use tilt_stream::Row;

/// Whether a state is read back from its spelling, if it is valid: its counts and ticks are below 2^63. Its other numbers are 64-bit
/// numbers, so their tests are always true.
pub fn is_in_range(state: &LiveState) -> bool
    ensures { IsTrue result ↔ IsInRange state.now }
{
    test_range(state)
}

// The same, as a test.
fn test_range(state: &LiveState) -> bool
    ensures { result ≡ is_in_range state.now }
{
    has_counts(state.progress) && have_numbers(&state.inputs)
}

// Whether the counts and ticks of what is known of a run's progress are below 2^63.
fn has_counts(progress: Progress) -> bool
    ensures { result ≡ has_counts progress }
{
    is_ticks(progress.options.lateness)
        && is_ticks(progress.options.idle)
        && is_ticks(progress.options.ahead)
        && progress.bytes < 1 << 63
        && progress.lines < 1 << 63
        && progress.written < 1 << 63
        && is_number(progress.from)
        && is_cell(progress.shown)
        && is_cell(progress.greatest)
        && is_cell(progress.latest)
}

// Whether ticks are below 2^63, if there are some.
fn is_ticks(ticks: Option<u64>) -> bool
    ensures { result ≡ is_ticks ticks }
{
    match ticks {
        None => true,
        Some(ticks) => ticks < 1 << 63,
    }
}

// Whether what is kept of each input has 64-bit numbers.
fn have_numbers(inputs: &[InputState]) -> bool
    ensures { result ≡ list_all has_numbers inputs.now }
{
    inputs.iter().all(|input| has_numbers(input))
}

// Whether what is kept of an input has 64-bit numbers.
fn has_numbers(input: &InputState) -> bool
    ensures { result ≡ has_numbers input.now }
{
    are_cells(input.rows.as_slice())
        && is_number(input.edge.watermark)
        && is_open(input.edge.open_row)
        && are_updates(&input.held)
}

// Whether the values of rows are 64-bit numbers.
fn are_cells(rows: &[Row]) -> bool
    ensures { result ≡ list_all (λ row. is_cell row.value) rows.now }
{
    rows.iter().all(|row| is_cell(row.value))
}

// Whether updates have 64-bit numbers.
fn are_updates(updates: &[Update]) -> bool
    ensures { result ≡ list_all is_update updates.now }
{
    updates.iter().all(|update| is_update(*update))
}

// Whether an open row has.
fn is_open(row: Option<OpenRow>) -> bool
    ensures { result ≡ is_open row }
{
    match row {
        None => true,
        Some(row) => is_number(row.start) && is_number(row.value),
    }
}

// Whether an update has.
fn is_update(update: Update) -> bool
    ensures { result ≡ is_update update }
{
    match update {
        Update::Row { start, end, value } => is_number(start) && is_number(end) && is_cell(value),
        Update::Value { start, value } => is_number(start) && is_number(value),
        Update::NoValue { start } => is_number(start),
        Update::KnownUpTo { watermark } => is_number(watermark),
    }
}

// Whether a value is a 64-bit number, if it isn't null.
fn is_cell(value: Cell) -> bool
    ensures { result ≡ is_cell value }
{
    match value {
        None => true,
        Some(value) => is_number(value),
    }
}

// Whether this is a 64-bit number. It always is.
fn is_number(_number: i64) -> bool
    ensures { result ≡ is_number _number }
{
    true
}
