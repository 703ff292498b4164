use tilt_checkpoint::Cuts;

/// Where a session ends.
#[derive(Drop)]
pub enum Cut {
    /// At cuts, one for each input: the session is handed the rows of an input that start below its cut, and leaves a checkpoint.
    Upto(Cuts),
    /// After all rows: the session is handed all rows that are left, and is the last one.
    End,
}
