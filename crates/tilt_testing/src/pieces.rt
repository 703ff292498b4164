// Rows and snapshots as the tables of tests have them.
use std::alloc::Global;
use std::test::Fail;
use tilt_base::{Cell, T};
use tilt_stream::{Row, Rows, Snap, SnapList};

/// A row or a snapshot: its start, its end and its value.
pub type Piece = (i64, i64, Cell);

/// The rows of these pieces.
pub fn rows_of(alloc: Global, pieces: &[Piece]) -> Result<Rows, Fail> {
    let mut rows = Rows::new(alloc);
    for (start, end, value) in pieces {
        let (start, end, value) = (*start, *end, *value);
        let from = rows.last_end().unwrap_or(-T);
        if start < from || end <= start || T < end {
            return Err("no rows".into());
        }
        rows.push(Row { start, end, value })?;
    }
    Ok(rows)
}

/// The rows of several inputs.
pub fn inputs_of(alloc: Global, inputs: &[&[Piece]]) -> Result<Vec<Rows>, Fail> {
    let mut all = Vec::new(alloc);
    for pieces in inputs {
        all.push(rows_of(alloc, pieces)?)?;
    }
    Ok(all)
}

/// The piece of a snapshot.
pub fn piece_of(snap: Snap) -> Piece {
    (snap.start, snap.end, snap.value)
}

/// The pieces of a list.
pub fn pieces_of(alloc: Global, list: &SnapList) -> Result<Vec<Piece>, Fail> {
    let mut pieces = Vec::new(alloc);
    for snap in list.as_slice() {
        pieces.push((snap.start, snap.end, snap.value))?;
    }
    Ok(pieces)
}
