// What is kept of each input, read.
ghost use Rattle.std.specs.Prelude.{◌≡◌, ℕ, [], ◌∷◌, ◌++◌, OnOk};
ghost use Rattle.tilt_checkpoint.specs.Reading.{Gives, follows, is_last_end, kept_at, kept_upto, may_follow, times, with_kept, with_row};
ghost use Rattle.tilt_stream.specs.Snap.{last_end};

use crate::cuts::is_cut;
use crate::fault::CheckpointFault;
use crate::form::Form;
use crate::kept::Kept;
use crate::reader::Reader;
use std::alloc::{AllocError as OutOfMemory, Global};
use tilt_base::T;
use tilt_stream::{Row, Rows};

// What is kept of this number of inputs.
pub(crate) fn read_series(
    alloc: Global,
    reader: &mut Reader<'_>,
    inputs: usize,
    form: Form,
) -> Result<Vec<Kept>, CheckpointFault>
    ensures { Gives (times (with_kept form) inputs ([], reader.old)) (λ series. (series.items, reader.new)) result }
{
    let mut series = Vec::new(alloc);
    for _ in 0..inputs {
        push_kept(alloc, &mut series, reader, form)?;
    }
    Ok(series)
}

// Adds what is kept of one input more.
fn push_kept(
    alloc: Global,
    series: &mut Vec<Kept>,
    reader: &mut Reader<'_>,
    form: Form,
) -> Result<(), CheckpointFault>
    ensures { Gives (with_kept form (series.old.items, reader.old)) (λ _. (series.new.items, reader.new)) result }
{
    let kept = read_kept(alloc, reader, form)?;
    add(series, kept)?;
    Ok(())
}

// Adds what is kept of an input.
fn add(series: &mut Vec<Kept>, kept: Kept) -> Result<(), OutOfMemory>
    ensures { OnOk result (series.new.items ≡ series.old.items ++ kept ∷ []) }
{
    series.push(kept)?;
    Ok(())
}

// What is kept of an input.
fn read_kept(alloc: Global, reader: &mut Reader<'_>, form: Form) -> Result<Kept, CheckpointFault>
    ensures { Gives (kept_at form reader.old) (λ kept. (kept, reader.new)) result }
{
    let cut = reader
        .own_cut(form.version, form.least)
        .ok_or(CheckpointFault::BadCheckpoint)?;
    if is_cut(cut) {
        read_upto(alloc, reader, form.first, cut)
    } else {
        Err(CheckpointFault::BadCheckpoint)
    }
}

// What is kept of an input with that cut.
fn read_upto(
    alloc: Global,
    reader: &mut Reader<'_>,
    first: i64,
    cut: i64,
) -> Result<Kept, CheckpointFault>
    ensures { Gives (kept_upto first cut reader.old) (λ kept. (kept, reader.new)) result }
{
    let (last_end, count) = reader.series_head().ok_or(CheckpointFault::BadCheckpoint)?;
    let rows = read_rows(alloc, reader, count, first, cut)?;
    if is_last_end(first, cut, rows.last_end(), last_end) {
        Ok(Kept {
            cut,
            last_end,
            rows,
        })
    } else {
        Err(CheckpointFault::BadCheckpoint)
    }
}

// This number of rows.
fn read_rows(
    alloc: Global,
    reader: &mut Reader<'_>,
    count: u64,
    first: i64,
    cut: i64,
) -> Result<Rows, CheckpointFault>
    ensures { Gives (times (with_row first cut) count ([], reader.old)) (λ rows. (rows, reader.new)) result }
{
    let mut rows = Rows::new(alloc);
    for _ in 0..count {
        push_row(&mut rows, reader, first, cut)?;
    }
    Ok(rows)
}

// Adds one row more.
fn push_row(
    rows: &mut Rows,
    reader: &mut Reader<'_>,
    first: i64,
    cut: i64,
) -> Result<(), CheckpointFault>
    ensures { Gives (with_row first cut (rows.old, reader.old)) (λ _. (rows.new, reader.new)) result }
{
    let row = reader.row().ok_or(CheckpointFault::BadCheckpoint)?;
    if !may_follow(first, cut, rows, row) {
        return Err(CheckpointFault::BadCheckpoint);
    }
    rows.push(row)?;
    Ok(())
}

// Whether a row may be kept after those, of an input with that cut.
fn may_follow(first: i64, cut: i64, rows: &Rows, row: Row) -> bool
    ensures { result ≡ may_follow first cut rows.now row }
{
    -T <= row.start
        && follows(rows.last_end(), row.start)
        && row.end <= T
        && first <= row.end
        && row.start < cut
}

// Whether a row may start there after the last one, if there is one.
fn follows(last_end: Option<i64>, start: i64) -> bool
    ensures { result ≡ follows last_end start }
{
    match last_end {
        None => true,
        Some(end) => end <= start,
    }
}

// Whether this is the last end of a series, of which the last row that is kept ends there.
fn is_last_end(first: i64, cut: i64, last_row: Option<i64>, last_end: Option<i64>) -> bool
    ensures { result ≡ is_last_end first cut last_row last_end }
{
    match (last_row, last_end) {
        (Some(_), None) => false,
        (Some(row), Some(last)) => last == row,
        (None, None) => true,
        (None, Some(last)) => -T < last && last <= T && last < first && -T < cut,
    }
}
