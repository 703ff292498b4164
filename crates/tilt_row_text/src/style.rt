// How rows are written.
ghost use Rattle.std.specs.Prelude.{◌≡◌};
ghost use Rattle.tilt_row_text.specs.Styles.{is_plain};

use crate::times::Times;

/// How rows are written.
#[derive(Clone, Copy, Debug, PartialEq, Eq)]
pub struct RowStyle {
    /// How their times are written.
    pub times: Times,
    /// How many decimals their values have, at most 19: a value is divided by a power of ten with as many zeros.
    pub decimals: u8,
}

impl RowStyle {
    /// Whether times are ticks and values whole numbers.
    #[inline]
    pub fn is_plain(&self) -> bool
        ensures { result ≡ is_plain self.now }
    {
        matches!(self.times, Times::Ticks) && self.decimals == 0
    }
}
