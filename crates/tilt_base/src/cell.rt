/// The value of a stream at a tick: null, or a signed number of 64 bits.
pub type Cell = Option<i64>;
