// The rows that updates close.
ghost use Rattle.std.specs.Prelude.{◌≡◌, [], ◌∷◌, ◌++◌, ◌≤ℤ◌, ◌<ℤ◌, None, Some, OnErr, OnOk, false, neg_ℤ};
ghost use Rattle.std.specs.Option.{ForSome};
ghost use Rattle.tilt_base.specs.declared.limits.TheConstants.{T};
ghost use Rattle.tilt_engine.specs.Stock.{MayClose};
ghost use Rattle.tilt_feed.specs.Events.{closed_by, update_fault};
ghost use Rattle.tilt_feed.specs.Feed.{closed_at};
ghost use Rattle.tilt_feed.specs.Laws.{IsInOrder};
ghost use Rattle.tilt_stream.specs.Snap.{last_end};

use std::alloc::AllocError as OutOfMemory;
use tilt_feed::{Edge, OpenRow, Update, continues};
use tilt_stream::{Row, Rows};

// Adds the rows that an update closes, which is allowed. If memory runs out, nothing changes.
pub(crate) fn add_closed(rows: &mut Rows, edge: Edge, update: Update) -> Result<(), OutOfMemory>
    requires order { IsInOrder (record { rows = rows.old; edge = edge }) }
    requires allowed { update_fault false edge update ≡ None }
    ensures ok { OnOk result (rows.new ≡ rows.old ++ closed_by edge update) }
    ensures err { OnErr result (rows.new ≡ rows.old) }
{
    match update {
        Update::Row { start, end, value } => {
            if continues(edge, start, value) {
                close(rows, edge.open_row, end)
            } else {
                close_before(rows, edge.open_row, Row { start, end, value })
            }
        }
        Update::Value { start, .. } => close(rows, edge.open_row, start),
        Update::NoValue { start } => close(rows, edge.open_row, start),
        Update::KnownUpTo { .. } => Ok(()),
    }
}

// Adds an open row, if there is one, ended at a tick.
fn close(rows: &mut Rows, open_row: Option<OpenRow>, end: i64) -> Result<(), OutOfMemory>
    requires { MayClose rows.old open_row end }
    ensures ok { OnOk result (rows.new ≡ rows.old ++ closed_at end open_row) }
    ensures err { OnErr result (rows.new ≡ rows.old) }
{
    match open_row {
        Some(row) => rows.push(ended(row, end)),
        None => Ok(()),
    }
}

// Adds an open row, if there is one, ended where another row starts, and then that row.
fn close_before(rows: &mut Rows, open_row: Option<OpenRow>, next: Row) -> Result<(), OutOfMemory>
    requires may { MayClose rows.old open_row next.start }
    requires alone { open_row ≡ None → ForSome (last_end rows.old) (λ last. last ≤ℤ next.start) }
    requires low { neg_ℤ T ≤ℤ next.start }
    requires high { next.end ≤ℤ T }
    ensures ok { OnOk result (rows.new ≡ rows.old ++ closed_at next.start open_row ++ next ∷ []) }
    ensures err { OnErr result (rows.new ≡ rows.old) }
{
    match open_row {
        Some(row) => {
            let two = [ended(row, next.start), next];
            rows.append(&two)
        }
        None => rows.push(next),
    }
}

// An open row, ended at a tick.
pub(crate) fn ended(row: OpenRow, end: i64) -> Row
    requires { row.start <ℤ end }
    ensures { result ≡ record { start = row.start; end = end; value = Some row.value } }
{
    Row {
        start: row.start,
        end,
        value: Some(row.value),
    }
}
