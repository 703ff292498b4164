// The rows that a session knows.
ghost use Rattle.std.specs.Prelude.{◌≡◌, ◌≤ℤ◌, ◌++◌, ◌∷◌, [], neg_ℤ, length, map, IfOk, OnOk};
ghost use Rattle.std.specs.List.{AllByRecursion};
ghost use Rattle.std.specs.Option.{ForSome};
ghost use Rattle.tilt_base.specs.declared.limits.TheConstants.{T};
ghost use Rattle.tilt_session.specs.Handed.{AreAfter, AreCells, IsAfter, kept_at, taken_up, all_taken_up};
ghost use Rattle.tilt_stream.specs.Pieces.{kept};
ghost use Rattle.tilt_checkpoint.specs.Valid.{IsCell};
ghost use Rattle.tilt_stream.specs.Snap.{AreRows, last_end};

use std::alloc::{AllocError as OutOfMemory, Global};
use tilt_checkpoint::Kept;
use tilt_stream::{Row, Rows};

// Of each input, the end of its last row so far, and the rows that a session knows.
#[derive(Drop)]
pub(crate) struct Handed {
    pub(crate) ends: Vec<Option<i64>>,
    pub(crate) rows: Vec<Rows>,
}

// What the first session knows.
pub(crate) fn first_rows(alloc: Global, rows: Vec<Rows>) -> Result<Handed, OutOfMemory>
    ensures ends { IfOk result (λ handed. handed.ends.items ≡ map last_end rows.items) }
    ensures rows { IfOk result (λ handed. handed.rows.items ≡ rows.items) }
{
    let ends = rows.iter().map(|each| each.last_end()).collect(alloc)?;
    Ok(Handed { ends, rows })
}

// What a later session knows: of each input the rows that are kept, and after them the new ones.
pub(crate) fn rows_after(
    alloc: Global,
    series: Vec<Kept>,
    new: &[Rows],
) -> Result<Handed, OutOfMemory>
    requires { AreAfter series.items new.now }
    ensures ends { IfOk result (λ handed. handed.ends.items ≡ map (λ k. k.last_end) (all_taken_up series.items new.now)) }
    ensures rows { IfOk result (λ handed. handed.rows.items ≡ map (λ k. k.rows) (all_taken_up series.items new.now)) }
    ensures in_order { IfOk result (λ handed. AllByRecursion AreRows new.now) }
{
    let mut series = series;
    take_up_all(&mut series, new)?;
    let ends = last_ends(alloc, &series)?;
    let rows = series.into_iter().map(|kept| kept.rows).collect(alloc)?;
    Ok(Handed { ends, rows })
}

// The end of the last row of each input.
fn last_ends(alloc: Global, series: &[Kept]) -> Result<Vec<Option<i64>>, OutOfMemory>
    ensures { IfOk result (λ ends. ends.items ≡ map (λ k. k.last_end) series.now) }
{
    let mut ends = Vec::new(alloc);
    for kept in series {
        ends.push(kept.last_end)?;
    }
    Ok(ends)
}

// Adds new rows to each input.
fn take_up_all(series: &mut Vec<Kept>, new: &[Rows]) -> Result<(), OutOfMemory>
    requires { AreAfter series.old.items new.now }
    ensures all { OnOk result (series.new.items ≡ all_taken_up series.old.items new.now) }
    ensures in_order { OnOk result (AllByRecursion AreRows new.now) }
{
    for (i, rows) in new.iter().enumerate() {
        take_up(&mut series[i], rows)?;
    }
    Ok(())
}

// Adds new rows to an input.
fn take_up(kept: &mut Kept, new: &Rows) -> Result<(), OutOfMemory>
    requires { IsAfter kept.old.rows new.now }
    ensures all { OnOk result (kept.new ≡ taken_up kept.old new.now) }
    ensures in_order { AreRows new.now }
{
    kept.rows.append(new.as_slice())?;
    if let Some(end) = new.last_end() {
        kept.last_end = Some(end);
    }
    Ok(())
}

// What is kept of each input at its cut, where `first` is the first tick that is kept.
pub(crate) fn keep(
    alloc: Global,
    handed: &Handed,
    cuts: &[i64],
    first: i64,
) -> Result<Vec<Kept>, OutOfMemory>
    requires ends { length handed.now.ends.items ≡ length handed.now.rows.items }
    requires cuts { length cuts.now ≡ length handed.now.rows.items }
    ensures kept { IfOk result (λ series. series.items ≡ kept_at first cuts.now handed.now.ends.items handed.now.rows.items) }
    ensures cells { IfOk result (λ series. AllByRecursion (λ k. AreCells k.rows) series.items) }
    ensures in_order { IfOk result (λ series. AllByRecursion AreRows handed.now.rows.items) }
{
    let mut series = Vec::new(alloc);
    for (i, all) in handed.rows.iter().enumerate() {
        keep_input(alloc, &mut series, cuts[i], handed.ends[i], all, first)?;
    }
    Ok(series)
}

// Adds what is kept of an input at its cut, of which the last row ends there.
fn keep_input(
    alloc: Global,
    series: &mut Vec<Kept>,
    cut: i64,
    last_end: Option<i64>,
    all: &Rows,
    first: i64,
) -> Result<(), OutOfMemory>
    ensures all { OnOk result (series.new.items
        ≡ series.old.items ++ record { cut = cut; last_end = last_end; rows = kept first all.now } ∷ []) }
    ensures cells { OnOk result (AreCells (kept first all.now)) }
    ensures in_order { AreRows all.now }
{
    let rows = kept_rows(alloc, all, first)?;
    series.push(Kept {
        cut,
        last_end,
        rows,
    })?;
    Ok(())
}

// The rows that end at a tick or after it.
fn kept_rows(alloc: Global, all: &Rows, first: i64) -> Result<Rows, OutOfMemory>
    ensures kept { IfOk result (λ rows. rows ≡ kept first all.now) }
    ensures cells { IfOk result (λ rows. AreCells rows) }
    ensures in_order { AreRows all.now }
{
    let mut rows = Rows::new(alloc);
    for row in all.as_slice() {
        keep_row(&mut rows, *row, first)?;
    }
    Ok(rows)
}

// Adds a row, where it ends at a tick or after it.
fn keep_row(rows: &mut Rows, row: Row, first: i64) -> Result<(), OutOfMemory>
    requires after { ForSome (last_end rows.old) (λ end. end ≤ℤ row.start) }
    requires low { neg_ℤ T ≤ℤ row.start }
    requires high { row.end ≤ℤ T }
    ensures all { OnOk result (rows.new ≡ rows.old ++ kept first (row ∷ [])) }
    ensures cell { IsCell row.value }
{
    if first <= row.end {
        rows.push(row)?;
    }
    Ok(())
}
