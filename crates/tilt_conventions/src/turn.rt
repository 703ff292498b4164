use tilt_base::Cell;

/// What comes of an input, in the order of arrival. Times are ticks.
#[derive(Clone, Copy, Debug, PartialEq, Eq)]
pub enum Turn {
    /// A reading.
    Reading { reading: Reading },
    /// No reading comes whose tick is the watermark or a tick before it.
    KnownUpTo { watermark: i64 },
}

/// A reading, with a value or without one.
#[derive(Clone, Copy, Debug, PartialEq, Eq)]
pub struct Reading {
    /// The tick that its moment lies in, from `1 - T` to `T`.
    pub tick: i64,
    /// Its value. A reading without a value ends the one before it.
    pub value: Cell,
}
