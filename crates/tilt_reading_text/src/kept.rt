// What a text of readings keeps, as plain data.
ghost use Rattle.std.specs.Prelude.{◌≡◌, IfOk, option_map};
ghost use Rattle.tilt_reading_lines.specs.Rules.{layout_of};

use std::alloc::{AllocError as OutOfMemory, Global};
use std::marker::Model;
use tilt_reading_feed::KeptReadings;
use tilt_reading_lines::Columns;

/// What is kept of the text of a feed, apart from its form and from what its readings mean. With these it is enough to go on from: a clause
/// sees it as plain data.
#[derive(Drop)]
pub struct KeptText {
    /// The columns of the header, if it has come.
    pub columns: Option<Columns>,
    /// What is kept of the feed.
    pub readings: KeptReadings,
}

impl Model for KeptText {
    ghost use Rattle.std.specs.Prelude.{option_map};
    ghost use Rattle.tilt_reading_lines.specs.Rules.{layout_of};
    ghost use Rattle.tilt_reading_text.specs.Kept.{BareText};

    ghost Value = { BareText };

    ghost view = { λ k. record { layout = option_map layout_of k.columns; readings = k.readings } };
}

// The same columns, if there are some.
pub(crate) fn copy_columns(
    alloc: Global,
    columns: &Option<Columns>,
) -> Result<Option<Columns>, OutOfMemory>
    ensures { IfOk result (λ copied. option_map layout_of copied ≡ option_map layout_of columns.now) }
{
    match columns {
        Some(columns) => Ok(Some(columns.copy(alloc)?)),
        None => Ok(None),
    }
}
