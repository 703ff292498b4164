use tilt_base::Cell;

/// What an event says of one input. Times are ticks.
#[derive(Clone, Copy, Debug, PartialEq, Eq)]
pub enum Update {
    /// A row on `(start, end]`. If it has the start and the value of the open row, it says where that row ends.
    Row { start: i64, end: i64, value: Cell },
    /// This value holds after `start`, up to an end that isn't known yet.
    Value { start: i64, value: i64 },
    /// No value holds after `start`, up to an end that isn't known yet.
    NoValue { start: i64 },
    /// Nothing new starts before the watermark.
    KnownUpTo { watermark: i64 },
}
