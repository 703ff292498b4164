// A change of rows, and with it a piece in place of a part of the output.
ghost use Rattle.std.specs.Prelude.{◌≡◌, ◌≤◌, length, OnOk, OnErr};
ghost use Rattle.std.specs.List.{splice};
ghost use Rattle.tilt_fix.specs.Change.{IsWithin, made};
ghost use Rattle.tilt_stream.specs.Snap.{AreRows, AreSnapshots};

use crate::change::Change;
use crate::piece::Piece;
use std::alloc::AllocError as OutOfMemory;
use tilt_stream::{Rows, SnapList};

// Makes the change of the rows, and writes the piece in its place. If memory runs out, both are as before: what may run out of
// memory comes first, and what is undone takes none.
pub(crate) fn put(
    rows: &mut Rows,
    output: &mut SnapList,
    change: &Change,
    piece: Piece,
) -> Result<(), OutOfMemory>
    requires within { IsWithin change.now rows.old }
    requires in_order { AreRows (made change.now rows.old) }
    requires order { piece.from ≤ piece.to }
    requires upto { piece.to ≤ length output.old }
    requires no_gaps { AreSnapshots (splice output.old piece.from piece.to piece.list) }
    ensures rows { OnOk result (rows.new ≡ made change.now rows.old) }
    ensures output { OnOk result (output.new ≡ splice output.old piece.from piece.to piece.list) }
    ensures rows_kept { OnErr result (rows.new ≡ rows.old) }
    ensures output_kept { OnErr result (output.new ≡ output.old) }
{
    let Piece { from, to, list } = piece;
    match change {
        Change::Insert { at, row } => {
            rows.insert(*at, *row)?;
            if output.replace(from, to, list).is_err() {
                rows.remove(*at);
                return Err(OutOfMemory);
            }
        }
        Change::Remove { at } => {
            output.replace(from, to, list)?;
            rows.remove(*at);
        }
        Change::Revalue { at, value } => {
            output.replace(from, to, list)?;
            rows.set(*at, *value);
        }
    }
    Ok(())
}
