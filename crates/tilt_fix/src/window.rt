// Copies of the rows that the output on a stretch of ticks looks at.
ghost use Rattle.std.specs.Prelude.{◌≡◌, ◌<◌, neg_ℤ, ◌+ℤ◌, ◌-ℤ◌, ◌≤ℤ◌, [], ◌++◌, drop, length, map, take, IfOk, OnOk};
ghost use Rattle.std.specs.List.{AllByRecursion, slice_index_or};
ghost use Rattle.std.specs.Option.{option_to_list};
ghost use Rattle.tilt_base.specs.declared.limits.TheConstants.{REACH, T};
ghost use Rattle.tilt_bounds.specs.Margins.{AreWithin, IsWithin as LooksWithin, evenly, need_of};
ghost use Rattle.tilt_fix.specs.Change.{IsChangeOf, IsWithin, all_made, made, next_of, place_of};
ghost use Rattle.tilt_edits.specs.Edited.{input_of};
ghost use Rattle.tilt_fix.specs.Window.{early, late, seen, window, window_in, windows};
ghost use Rattle.tilt_stream.specs.Snap.{AreRows};

use crate::change::Change;
use std::alloc::{AllocError as OutOfMemory, Global};
use tilt_base::Span;
use tilt_bounds::{Need, need_at};
use tilt_edits::Edit;
use tilt_stream::{Row, Rows};

// Of each input the rows that the output on these ticks looks at, after a change of the rows of one of them.
pub(crate) fn windows_after(
    alloc: Global,
    rows: &[Rows],
    edit: &Edit,
    change: &Change,
    needs: &[Need],
    on: Span,
) -> Result<Vec<Rows>, OutOfMemory>
    requires input { input_of edit.now < length rows.now }
    requires change { IsChangeOf edit.now (slice_index_or rows.now (input_of edit.now) []) change.now }
    requires near { AreWithin (evenly REACH) (map need_of needs.now) }
    requires low { neg_ℤ T ≤ℤ on.start }
    requires high { on.end ≤ℤ T }
    ensures windows { IfOk result (λ list. list.items
        ≡ windows (map need_of needs.now) on.start on.end 0 (all_made change.now (input_of edit.now) rows.now)) }
    ensures in_order { IfOk result (λ _. AllByRecursion AreRows (all_made change.now (input_of edit.now) rows.now)) }
{
    let input = edit.input() as usize;
    let mut list = Vec::new(alloc);
    push_windows(alloc, &mut list, &rows[..input], needs, on)?;
    let seen = seen(need_at(needs, input), on);
    list.push(changed_window(alloc, &rows[input], edit, change, seen)?)?;
    push_windows(alloc, &mut list, &rows[input + 1..], needs, on)?;
    Ok(list)
}

// Those of an input, after a change of them, that have a tick which is looked at.
fn changed_window(
    alloc: Global,
    rows: &Rows,
    edit: &Edit,
    change: &Change,
    seen: Option<Span>,
) -> Result<Rows, OutOfMemory>
    requires { IsChangeOf edit.now rows.now change.now }
    ensures { IfOk result (λ list. list ≡ window_in seen (made change.now rows.now)) }
{
    let all = rows.as_slice();
    window_around(
        alloc,
        before(all, change),
        edit.put(),
        after(all, change),
        seen,
    )
}

// Adds the windows of further inputs.
fn push_windows(
    alloc: Global,
    list: &mut Vec<Rows>,
    rows: &[Rows],
    needs: &[Need],
    on: Span,
) -> Result<(), OutOfMemory>
    requires near { AreWithin (evenly REACH) (map need_of needs.now) }
    requires low { neg_ℤ T ≤ℤ on.start }
    requires high { on.end ≤ℤ T }
    ensures windows { OnOk result
        (list.new.items ≡ list.old.items ++ windows (map need_of needs.now) on.start on.end (length list.old.items) rows.now) }
    ensures in_order { OnOk result (AllByRecursion AreRows rows.now) }
{
    for each in rows {
        let seen = seen(need_at(needs, list.len()), on);
        list.push(window(alloc, each.as_slice(), &[], &[], seen)?)?;
    }
    Ok(())
}

// The rows before the place of a change.
fn before<'a>(rows: &'a [Row], change: &Change) -> &'a [Row]
    requires { IsWithin change.now rows.now }
    ensures { result.now ≡ take (place_of change.now) rows.now }
{
    match change {
        Change::Insert { at, .. } => &rows[..*at],
        Change::Remove { at } => &rows[..*at],
        Change::Revalue { at, .. } => &rows[..*at],
    }
}

// The rows after it that stay.
fn after<'a>(rows: &'a [Row], change: &Change) -> &'a [Row]
    requires { IsWithin change.now rows.now }
    ensures { result.now ≡ drop (next_of change.now) rows.now }
{
    match change {
        Change::Insert { at, .. } => &rows[*at..],
        Change::Remove { at } => &rows[*at + 1..],
        Change::Revalue { at, .. } => &rows[*at + 1..],
    }
}

// The ticks of a source with that need that the output on these ticks reads; none if it isn't used.
fn seen(need: Need, on: Span) -> Option<Span>
    requires near { LooksWithin (evenly REACH) (need_of need) }
    requires low { neg_ℤ T ≤ℤ on.start }
    requires high { on.end ≤ℤ T }
    ensures { result ≡ seen (need_of need) on.start on.end }
{
    match need {
        Need::Unused => None,
        Need::Used { back, ahead } => Some(Span {
            start: on.start - back,
            end: on.end + ahead,
        }),
    }
}

// The same of rows, of a row after them, if there is one, and of rows after it.
fn window_around(
    alloc: Global,
    before: &[Row],
    put: Option<Row>,
    after: &[Row],
    seen: Option<Span>,
) -> Result<Rows, OutOfMemory>
    requires { AreRows (before.now ++ option_to_list put ++ after.now) }
    ensures { IfOk result (λ rows. rows ≡ window_in seen (before.now ++ option_to_list put ++ after.now)) }
{
    match put {
        None => window(alloc, before, &[], after, seen),
        Some(row) => window(alloc, before, &[row], after, seen),
    }
}

// Those of rows, of rows after them and of rows after those that have a tick which is looked at.
fn window(
    alloc: Global,
    before: &[Row],
    put: &[Row],
    after: &[Row],
    seen: Option<Span>,
) -> Result<Rows, OutOfMemory>
    requires { AreRows (before.now ++ put.now ++ after.now) }
    ensures { IfOk result (λ rows. rows ≡ window_in seen (before.now ++ put.now ++ after.now)) }
{
    match seen {
        None => Ok(Rows::new(alloc)),
        Some(on) => window_on(alloc, before, put, after, on),
    }
}

// The same if some ticks are read.
fn window_on(
    alloc: Global,
    before: &[Row],
    put: &[Row],
    after: &[Row],
    on: Span,
) -> Result<Rows, OutOfMemory>
    requires { AreRows (before.now ++ put.now ++ after.now) }
    ensures { IfOk result (λ rows. rows ≡ window on.start on.end (before.now ++ put.now ++ after.now)) }
{
    let mut rows = Rows::new(alloc);
    push_window(&mut rows, before, on)?;
    push_window(&mut rows, put, on)?;
    push_window(&mut rows, after, on)?;
    Ok(rows)
}

// Adds those of further rows that have one of the ticks.
fn push_window(rows: &mut Rows, more: &[Row], on: Span) -> Result<(), OutOfMemory>
    requires in_order { AreRows more.now }
    requires behind { AreRows (rows.old ++ window on.start on.end more.now) }
    ensures { OnOk result (rows.new ≡ rows.old ++ window on.start on.end more.now) }
{
    rows.append(early(late(more, on.start), on.end))
}

// The rows that end after a tick: the last ones.
fn late(rows: &[Row], tick: i64) -> &[Row]
    requires { AreRows rows.now }
    ensures rows { result.now ≡ late tick rows.now }
    ensures in_order { AreRows result.now }
{
    &rows[rows.partition_point(|row| row.end <= tick)..]
}

// The rows that start before a tick: the first ones.
fn early(rows: &[Row], tick: i64) -> &[Row]
    requires { AreRows rows.now }
    ensures { result.now ≡ early tick rows.now }
{
    &rows[..rows.partition_point(|row| row.start < tick)]
}
