use std::marker::Model;
use tilt_stream::Rows;

/// What is kept of an input. A clause sees it as plain data.
#[derive(Drop)]
pub struct Kept {
    /// Its cut, in ticks: the rows of the input that start below it were seen.
    pub cut: i64,
    /// The end of the last row that any session was handed, in ticks, or `None` if there was no row.
    pub last_end: Option<i64>,
    /// The rows that the next session may read.
    pub rows: Rows,
}

impl Model for Kept {
    ghost use Rattle.tilt_checkpoint.specs.Checkpoint.{KeptParts};

    ghost Value = { KeptParts };

    ghost view = { λ k. record { cut = k.cut; last_end = k.last_end; rows = k.rows } };
}
