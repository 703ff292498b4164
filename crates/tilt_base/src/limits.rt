/// Each time that a query or a series file writes lies in `-T..=T`, in ticks.
pub const T: i64 = 4_000_000_000_000_000_000;

/// Each time of a snapshot that is computed lies in `-WIDE..=WIDE`, in ticks.
pub const WIDE: i64 = 4_500_000_000_000_000_000;

/// The largest look-back and the largest look-ahead of a query, in ticks.
pub const REACH: i64 = 1_000_000_000_000;

/// The largest period of a grid, in ticks.
pub const PERIOD: i64 = 1_000_000_000_001;

/// The largest offset of a reading in loop code, in ticks.
pub const OFFSET: i64 = 2_000_000_000_000;

/// The largest length of a file that is read, in bytes.
pub const FILE: u64 = 1_073_741_824;
