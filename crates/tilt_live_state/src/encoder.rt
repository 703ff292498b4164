// The spelling of a state.
ghost use Rattle.std.specs.Prelude.{◌≡◌, ◌∷◌, [], ◌++◌, codes, flat_map, OnOk, Some};
ghost use Rattle.std.specs.Fmt.{decimal, signed_decimal};
ghost use Rattle.tilt_checkpoint.specs.Spelling.{query_lines, row_lines, time_text};
ghost use Rattle.tilt_live_state.specs.Spelling.{counts_lines, field, flag_text, head_line, headed};
ghost use Rattle.tilt_live_state.specs.Spelling.{input_lines, line, marks_lines, open_start, open_value};
ghost use Rattle.tilt_live_state.specs.Spelling.{options_lines, place_lines, progress_lines, run_lines, spelled, ticks_text, update_line};
ghost use Rattle.tilt_stream.specs.Text.{cell_text, row_text};

use crate::progress::Progress;
use crate::state::{InputState, LiveState};
use std::alloc::{AllocError as OutOfMemory, Global};
use tilt_base::Cell;
use tilt_feed::{Edge, OpenRow, Update};
use tilt_stream::Row;
use tilt_syntax::{Query, print};
use tilt_text::{put, put_number};
use tilt_watermarks::Options;

/// Appends the spelling of a state to a text: `tilt live 1`, and what `specs/Spelling` says. If memory runs out, what was there before is
/// still there, and a part of the spelling may be after it.
pub fn encode(alloc: Global, state: &LiveState, text: &mut Vec<u8>) -> Result<(), OutOfMemory>
    ensures { OnOk result (text.new.items ≡ text.old.items ++ spelled state.now) }
{
    put_state(alloc, text, &state.query, state.progress, &state.inputs)
}

// Appends the spelling of a state of these parts.
fn put_state(
    alloc: Global,
    text: &mut Vec<u8>,
    query: &Query,
    progress: Progress,
    inputs: &[InputState],
) -> Result<(), OutOfMemory>
    ensures { OnOk result (text.new.items ≡ text.old.items ++ headed query.now (run_lines progress inputs.now)) }
{
    put(text, b"tilt live 1\n")?;
    put_query(alloc, text, query)?;
    put_run(text, progress, inputs)
}

// Appends what is after the query.
fn put_run(text: &mut Vec<u8>, progress: Progress, inputs: &[InputState]) -> Result<(), OutOfMemory>
    ensures { OnOk result (text.new.items ≡ text.old.items ++ run_lines progress inputs.now) }
{
    put_progress(text, progress)?;
    put_inputs(text, inputs)?;
    put(text, b"end\n")
}

// Appends the number of the query's statements, and their lines.
fn put_query(alloc: Global, text: &mut Vec<u8>, query: &Query) -> Result<(), OutOfMemory>
    ensures { OnOk result (text.new.items ≡ text.old.items ++ query_lines query.now) }
{
    let lines = print(alloc, query)?;
    put(text, b"query ")?;
    put_number(text, query.statements().len())?;
    put(text, b"\n")?;
    put(text, &lines)
}

// Appends how far a run is.
fn put_progress(text: &mut Vec<u8>, progress: Progress) -> Result<(), OutOfMemory>
    ensures { OnOk result (text.new.items ≡ text.old.items ++ progress_lines progress) }
{
    put_options(text, progress.options)?;
    put_counts(text, progress)?;
    put_place(text, progress)?;
    put_marks(text, progress)
}

// Appends the lines of options.
fn put_options(text: &mut Vec<u8>, options: Options) -> Result<(), OutOfMemory>
    ensures { OnOk result (text.new.items ≡ text.old.items ++ options_lines options) }
{
    put_ticks(text, b"lateness", options.lateness)?;
    put_ticks(text, b"idle", options.idle)?;
    put_ticks(text, b"ahead", options.ahead)
}

// Appends the lines of what was taken and written.
fn put_counts(text: &mut Vec<u8>, progress: Progress) -> Result<(), OutOfMemory>
    ensures { OnOk result (text.new.items ≡ text.old.items ++ counts_lines progress) }
{
    put_count(text, b"bytes", progress.bytes, b'\n')?;
    put_count(text, b"lines", progress.lines, b'\n')?;
    put_count(text, b"written", progress.written, b'\n')
}

// Appends the lines of where the output goes on.
fn put_place(text: &mut Vec<u8>, progress: Progress) -> Result<(), OutOfMemory>
    ensures { OnOk result (text.new.items ≡ text.old.items ++ place_lines progress) }
{
    put_time(text, b"from", Some(progress.from), b'\n')?;
    put_time(text, b"shown", progress.shown, b'\n')?;
    put_flag(text, b"finished", progress.finished)
}

// Appends the lines of the largest watermarks.
fn put_marks(text: &mut Vec<u8>, progress: Progress) -> Result<(), OutOfMemory>
    ensures { OnOk result (text.new.items ≡ text.old.items ++ marks_lines progress) }
{
    put_time(text, b"greatest", progress.greatest, b'\n')?;
    put_time(text, b"latest", progress.latest, b'\n')
}

// Appends the lines of all inputs.
fn put_inputs(text: &mut Vec<u8>, inputs: &[InputState]) -> Result<(), OutOfMemory>
    ensures { OnOk result (text.new.items ≡ text.old.items ++ flat_map input_lines inputs.now) }
{
    for input in inputs {
        put_input(text, input)?;
    }
    Ok(())
}

// Appends the lines of an input.
fn put_input(text: &mut Vec<u8>, input: &InputState) -> Result<(), OutOfMemory>
    ensures { OnOk result (text.new.items ≡ text.old.items ++ input_lines input.now) }
{
    put_head(text, input.edge, input.rows.len(), input.held.len())?;
    put_rows(text, input.rows.as_slice())?;
    put_updates(text, &input.held)
}

// Appends the line of an edge, and of how many rows and updates follow.
fn put_head(text: &mut Vec<u8>, edge: Edge, rows: usize, held: usize) -> Result<(), OutOfMemory>
    ensures { OnOk result (text.new.items ≡ text.old.items ++ head_line edge rows held) }
{
    put_time(text, b"watermark", Some(edge.watermark), b' ')?;
    put_time(text, b"open", open_start(edge.open_row), b' ')?;
    put_time(text, b"value", open_value(edge.open_row), b' ')?;
    put_count(text, b"rows", rows as u64, b' ')?;
    put_count(text, b"held", held as u64, b'\n')
}

// Where an open row starts, if there is one.
fn open_start(row: Option<OpenRow>) -> Option<i64>
    ensures { result ≡ open_start row }
{
    Some(row?.start)
}

// Its value.
fn open_value(row: Option<OpenRow>) -> Option<i64>
    ensures { result ≡ open_value row }
{
    Some(row?.value)
}

// Appends the lines of rows.
fn put_rows(text: &mut Vec<u8>, rows: &[Row]) -> Result<(), OutOfMemory>
    ensures { OnOk result (text.new.items ≡ text.old.items ++ row_lines rows.now) }
{
    for row in rows {
        put_row(text, row)?;
    }
    Ok(())
}

// Appends the line of a row.
fn put_row(text: &mut Vec<u8>, row: &Row) -> Result<(), OutOfMemory>
    ensures { OnOk result (text.new.items ≡ text.old.items ++ row_text row.now) }
{
    put_number(text, row.start)?;
    put(text, b",")?;
    put_number(text, row.end)?;
    put(text, b",")?;
    put_cell(text, row.value)?;
    put(text, b"\n")
}

// Appends the lines of updates.
fn put_updates(text: &mut Vec<u8>, updates: &[Update]) -> Result<(), OutOfMemory>
    ensures { OnOk result (text.new.items ≡ text.old.items ++ flat_map update_line updates.now) }
{
    for update in updates {
        put_update(text, *update)?;
    }
    Ok(())
}

// Appends the line of an update.
fn put_update(text: &mut Vec<u8>, update: Update) -> Result<(), OutOfMemory>
    ensures { OnOk result (text.new.items ≡ text.old.items ++ update_line update) }
{
    match update {
        Update::Row { start, end, value } => put_held_row(text, start, end, value),
        Update::Value { start, value } => put_held_value(text, start, value),
        Update::NoValue { start } => put_time(text, b"null", Some(start), b'\n'),
        Update::KnownUpTo { watermark } => put_time(text, b"known", Some(watermark), b'\n'),
    }
}

// Appends the line of a row that is held.
fn put_held_row(text: &mut Vec<u8>, start: i64, end: i64, value: Cell) -> Result<(), OutOfMemory>
    ensures { OnOk result (text.new.items ≡ text.old.items
        ++ line (codes "row") (signed_decimal start ++ 44 ∷ (signed_decimal end ++ 44 ∷ cell_text value))) }
{
    put(text, b"row ")?;
    put_times(text, start, end)?;
    put_cell(text, value)?;
    put(text, b"\n")
}

// Appends two times, with a comma after each.
fn put_times(text: &mut Vec<u8>, start: i64, end: i64) -> Result<(), OutOfMemory>
    ensures { OnOk result (text.new.items ≡ text.old.items ++ (signed_decimal start ++ 44 ∷ (signed_decimal end ++ 44 ∷ []))) }
{
    put_number(text, start)?;
    put(text, b",")?;
    put_number(text, end)?;
    put(text, b",")
}

// Appends the line of a value that is held.
fn put_held_value(text: &mut Vec<u8>, start: i64, value: i64) -> Result<(), OutOfMemory>
    ensures { OnOk result (text.new.items ≡ text.old.items
        ++ line (codes "value") (signed_decimal start ++ 44 ∷ signed_decimal value)) }
{
    put(text, b"value ")?;
    put_number(text, start)?;
    put(text, b",")?;
    put_number(text, value)?;
    put(text, b"\n")
}

// Appends a value, and nothing for null.
fn put_cell(text: &mut Vec<u8>, cell: Cell) -> Result<(), OutOfMemory>
    ensures { OnOk result (text.new.items ≡ text.old.items ++ cell_text cell) }
{
    match cell {
        Some(value) => put_number(text, value),
        None => Ok(()),
    }
}

// Appends a field of ticks.
fn put_ticks(text: &mut Vec<u8>, word: &[u8], ticks: Option<u64>) -> Result<(), OutOfMemory>
    ensures { OnOk result (text.new.items ≡ text.old.items ++ line word.now (ticks_text ticks)) }
{
    put(text, word)?;
    put(text, b" ")?;
    match ticks {
        Some(ticks) => put_number(text, ticks)?,
        None => put(text, b"none")?,
    }
    put(text, b"\n")
}

// Appends a field of a count.
fn put_count(text: &mut Vec<u8>, word: &[u8], count: u64, mark: u8) -> Result<(), OutOfMemory>
    ensures { OnOk result (text.new.items ≡ text.old.items ++ field mark word.now (decimal count)) }
{
    put(text, word)?;
    put(text, b" ")?;
    put_number(text, count)?;
    put(text, &[mark])
}

// Appends a field of a time.
fn put_time(text: &mut Vec<u8>, word: &[u8], time: Option<i64>, mark: u8) -> Result<(), OutOfMemory>
    ensures { OnOk result (text.new.items ≡ text.old.items ++ field mark word.now (time_text time)) }
{
    put(text, word)?;
    put(text, b" ")?;
    put_time_or_none(text, time)?;
    put(text, &[mark])
}

// Appends a time, or `none`.
fn put_time_or_none(text: &mut Vec<u8>, time: Option<i64>) -> Result<(), OutOfMemory>
    ensures { OnOk result (text.new.items ≡ text.old.items ++ time_text time) }
{
    match time {
        Some(time) => put_number(text, time),
        None => put(text, b"none"),
    }
}

// Appends a field of a flag.
fn put_flag(text: &mut Vec<u8>, word: &[u8], flag: bool) -> Result<(), OutOfMemory>
    ensures { OnOk result (text.new.items ≡ text.old.items ++ line word.now (flag_text flag)) }
{
    put(text, word)?;
    if flag {
        put(text, b" yes\n")
    } else {
        put(text, b" no\n")
    }
}
