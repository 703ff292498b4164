use tilt_row_text::RowStyle;

/// What of its output a run writes, and how.
#[derive(Clone, Copy, Debug, PartialEq, Eq)]
pub struct Display {
    /// Whether what has begun is written.
    pub with_begun: bool,
    /// How rows are written.
    pub style: RowStyle,
}
