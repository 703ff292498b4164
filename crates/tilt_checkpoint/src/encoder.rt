// The spelling of a checkpoint, in the second version.
ghost use Rattle.std.specs.Prelude.{◌≡◌, ◌++◌, codes, flat_map, IfOk, OnOk};
ghost use Rattle.std.specs.Fmt.{decimal};
ghost use Rattle.tilt_checkpoint.specs.Spelling.{body_lines, cut_line, cut_words, open_line, query_lines, row_lines, series_lines};
ghost use Rattle.tilt_checkpoint.specs.Spelling.{spelling, time_text};
ghost use Rattle.tilt_checkpoint.specs.declared.version.Version.TheVariants.{Second};
ghost use Rattle.tilt_stream.specs.Text.{cell_text, row_text};

use crate::checkpoint::Checkpoint;
use crate::kept::Kept;
use std::alloc::{AllocError as OutOfMemory, Global};
use tilt_base::Cell;
use tilt_stream::Row;
use tilt_syntax::{Query, print};
use tilt_text::{put, put_number};

// The first line, with the version.
const TITLE: &[u8] = b"tilt checkpoint 2\n";

/// The spelling of the checkpoint: the text that is written of it.
pub fn encode(alloc: Global, checkpoint: &Checkpoint) -> Result<Vec<u8>, OutOfMemory>
    ensures text { IfOk result (λ text. text.items ≡ spelling checkpoint.now) }
{
    let mut text = Vec::new(alloc);
    put(&mut text, TITLE)?;
    put_query(alloc, &mut text, checkpoint.query())?;
    put_body(&mut text, checkpoint)?;
    Ok(text)
}

// Appends the lines after the query.
fn put_body(text: &mut Vec<u8>, checkpoint: &Checkpoint) -> Result<(), OutOfMemory>
    ensures { OnOk result (text.new.items ≡ text.old.items
        ++ body_lines Second checkpoint.now.cut checkpoint.now.open_start checkpoint.now.series) }
{
    put_cut(text, checkpoint.cut())?;
    put_open(text, checkpoint.open_start())?;
    put_each(text, checkpoint.series())?;
    put(text, b"end\n")
}

// Appends the number of the query's statements, and their lines.
fn put_query(alloc: Global, text: &mut Vec<u8>, query: &Query) -> Result<(), OutOfMemory>
    ensures { OnOk result (text.new.items ≡ text.old.items ++ query_lines query.now) }
{
    let lines = print(alloc, query)?;
    put(text, b"query ")?;
    put_number(text, query.statements().len())?;
    put(text, b"\n")?;
    put(text, &lines)
}

// Appends the line of the least cut.
fn put_cut(text: &mut Vec<u8>, cut: i64) -> Result<(), OutOfMemory>
    ensures { OnOk result (text.new.items ≡ text.old.items ++ cut_line cut) }
{
    put(text, b"cut ")?;
    put_number(text, cut)?;
    put(text, b"\n")
}

// Appends the line of the open snapshot's start.
fn put_open(text: &mut Vec<u8>, start: Option<i64>) -> Result<(), OutOfMemory>
    ensures { OnOk result (text.new.items ≡ text.old.items ++ open_line start) }
{
    put(text, b"open ")?;
    put_time(text, start)?;
    put(text, b"\n")
}

// Appends the lines of all series.
fn put_each(text: &mut Vec<u8>, series: &[Kept]) -> Result<(), OutOfMemory>
    ensures { OnOk result (text.new.items ≡ text.old.items ++ flat_map (series_lines Second) series.now) }
{
    for kept in series {
        put_series(text, kept)?;
    }
    Ok(())
}

// Appends the lines of a series.
fn put_series(text: &mut Vec<u8>, kept: &Kept) -> Result<(), OutOfMemory>
    ensures { OnOk result (text.new.items ≡ text.old.items ++ series_lines Second kept.now) }
{
    put_own_cut(text, kept.cut)?;
    put_head(text, kept.last_end, kept.rows.len())?;
    put_rows(text, kept.rows.as_slice())
}

// Appends the cut of an input.
fn put_own_cut(text: &mut Vec<u8>, cut: i64) -> Result<(), OutOfMemory>
    ensures { OnOk result (text.new.items ≡ text.old.items ++ cut_words Second cut) }
{
    put(text, b"cut ")?;
    put_number(text, cut)?;
    put(text, b" ")
}

// Appends the last end of an input and the number of its rows.
fn put_head(text: &mut Vec<u8>, last_end: Option<i64>, count: usize) -> Result<(), OutOfMemory>
    ensures { OnOk result (text.new.items ≡ text.old.items
        ++ (codes "last " ++ (time_text last_end ++ (codes " rows " ++ (decimal count ++ codes "\n"))))) }
{
    put(text, b"last ")?;
    put_time(text, last_end)?;
    put(text, b" rows ")?;
    put_number(text, count)?;
    put(text, b"\n")
}

// Appends the lines of rows.
fn put_rows(text: &mut Vec<u8>, rows: &[Row]) -> Result<(), OutOfMemory>
    ensures { OnOk result (text.new.items ≡ text.old.items ++ row_lines rows.now) }
{
    for row in rows {
        put_row(text, row)?;
    }
    Ok(())
}

// Appends the line of a row.
fn put_row(text: &mut Vec<u8>, row: &Row) -> Result<(), OutOfMemory>
    ensures { OnOk result (text.new.items ≡ text.old.items ++ row_text row.now) }
{
    put_number(text, row.start)?;
    put(text, b",")?;
    put_number(text, row.end)?;
    put(text, b",")?;
    put_cell(text, row.value)?;
    put(text, b"\n")
}

// Appends a value, and nothing for null.
fn put_cell(text: &mut Vec<u8>, cell: Cell) -> Result<(), OutOfMemory>
    ensures { OnOk result (text.new.items ≡ text.old.items ++ cell_text cell) }
{
    match cell {
        Some(value) => put_number(text, value),
        None => Ok(()),
    }
}

// Appends a time, or `none`.
fn put_time(text: &mut Vec<u8>, time: Option<i64>) -> Result<(), OutOfMemory>
    ensures { OnOk result (text.new.items ≡ text.old.items ++ time_text time) }
{
    match time {
        Some(time) => put_number(text, time),
        None => put(text, b"none"),
    }
}
