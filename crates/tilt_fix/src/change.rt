// Where an edit changes rows.
ghost use Rattle.std.specs.Prelude.{◌≡◌, ◌≤◌, ℕ, length, neg_ℤ, pos, ◌+ℤ◌, ◌<ℤ◌, ◌≤ℤ◌, false, Err, IfOk, IfErr};
ghost use Rattle.std.specs.List.{list_any};
ghost use Rattle.tilt_base.specs.declared.limits.TheConstants.{T};
ghost use Rattle.tilt_fix.specs.Change.{HasRowAt, IsChangeOf};
ghost use Rattle.tilt_edits.specs.Edited.{added, edited, has_times, start_of, end_of};
ghost use Rattle.tilt_edits.specs.declared.edit.Edit.{Edit};
ghost use Rattle.tilt_edits.specs.declared.fault.FixFault.{FixFault};
ghost use Rattle.tilt_stream.specs.Snap.{AreRows, ended_below};

use tilt_base::Cell;
use tilt_edits::{Edit, FixFault};
use tilt_stream::Row;

/// A change of rows at a place, which is counted from 0.
#[derive(Clone, Copy)]
pub(crate) enum Change {
    /// The row is inserted before the one at the place.
    Insert { at: usize, row: Row },
    /// The row at the place is removed.
    Remove { at: usize },
    /// The row at the place gets another value.
    Revalue { at: usize, value: Cell },
}

/// The change of its input's rows that an edit is, or why it is none. It is found by binary search, and takes no memory.
pub(crate) fn change_of(rows: &[Row], edit: &Edit) -> Result<Change, FixFault>
    requires rows { AreRows rows.now }
    requires low { neg_ℤ T ≤ℤ start_of edit.now }
    requires some { start_of edit.now <ℤ end_of edit.now }
    requires high { end_of edit.now ≤ℤ T }
    ensures change { IfOk result (IsChangeOf edit.now rows.now) }
    ensures refused { IfErr result (λ fault. edited edit.now rows.now ≡ Err fault) }
{
    match edit {
        Edit::Add { row, .. } => insertion(rows, *row),
        Edit::Remove { start, end, .. } => Ok(Change::Remove {
            at: place_of(rows, *start, *end)?,
        }),
        Edit::Set { row, .. } => Ok(Change::Revalue {
            at: place_of(rows, row.start, row.end)?,
            value: row.value,
        }),
    }
}

// A row more, or the first row that has a tick in common with it.
fn insertion(rows: &[Row], row: Row) -> Result<Change, FixFault>
    requires rows { AreRows rows.now }
    requires low { neg_ℤ T ≤ℤ row.start }
    requires high { row.end ≤ℤ T }
    ensures change { (input : ℕ) → IfOk result (IsChangeOf (Edit.Add input row) rows.now) }
    ensures refused { IfErr result (λ fault. added row rows.now rows.now ≡ Err fault) }
{
    prove!(row.start < row.end);
    let at = passed(rows, row.start);
    match rows.get(at) {
        Some(next) if next.start < row.end => Err(FixFault::Overlaps { row: *next }),
        _ => Ok(Change::Insert { at, row }),
    }
}

// The place of the row of exactly these times.
fn place_of(rows: &[Row], start: i64, end: i64) -> Result<usize, FixFault>
    requires { AreRows rows.now }
    ensures found { IfOk result (HasRowAt rows.now start end) }
    ensures refused { IfErr result (λ fault. (fault ≡ FixFault.NoSuchRow) × (list_any (has_times start end) rows.now ≡ false)) }
{
    let at = passed(rows, start);
    match rows.get(at) {
        Some(next) if next.start == start && next.end == end => Ok(at),
        _ => Err(FixFault::NoSuchRow),
    }
}

// How many rows end at a tick or before it.
fn passed(rows: &[Row], tick: i64) -> usize
    requires { AreRows rows.now }
    ensures number { result ≡ ended_below (tick +ℤ pos 1) rows.now }
    ensures within { result ≤ length rows.now }
{
    rows.partition_point(|row| row.end <= tick)
}
