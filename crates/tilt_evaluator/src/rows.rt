// The stream of rows, at one tick.
ghost use Rattle.std.specs.Prelude.{◌≡◌, ◌||◌, pos, ◌+ℤ◌};
ghost use Rattle.std.specs.Ordering.{int_eq};
ghost use Rattle.tilt_stream.specs.Stream.{cell_at, mark_at, covers};

use crate::tick::follows;
use tilt_base::Cell;
use tilt_stream::Row;

/// The cell of the rows' stream at the tick.
pub fn row_cell(rows: &[Row], tick: i128) -> Cell
    ensures { result ≡ cell_at rows.now tick }
{
    for row in rows {
        if covers(row, tick) {
            return row.value;
        }
    }
    None
}

/// Whether the rows' stream has a mark at the tick.
pub fn row_mark(rows: &[Row], tick: i128) -> bool
    ensures { result ≡ mark_at rows.now tick }
{
    for row in rows {
        if begins_or_ended(row, tick) {
            return true;
        }
    }
    false
}

// Whether the row covers the tick.
fn covers(row: &Row, tick: i128) -> bool
    ensures { result ≡ covers row.now tick }
{
    i128::from(row.start) < tick && tick <= i128::from(row.end)
}

// Whether the row begins at the tick, or ended at the tick before.
fn begins_or_ended(row: &Row, tick: i128) -> bool
    ensures { result ≡ (int_eq tick (row.now.start +ℤ pos 1) || int_eq tick (row.now.end +ℤ pos 1)) }
{
    follows(row.start, tick) || follows(row.end, tick)
}
