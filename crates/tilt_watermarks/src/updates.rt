// What updates say of their inputs.
ghost use Rattle.std.specs.Prelude.{◌≡◌, true, false, is_none};
ghost use Rattle.tilt_feed.specs.Events.{in_range, opened_by, update_fault, watermark_after};
ghost use Rattle.tilt_watermarks.specs.Held.{bare, given_by, is_due, moved, start_of};

use crate::less::less_late;
use tilt_base::T;
use tilt_feed::{Edge, OpenRow, Update, update_fault};

// Where an update starts.
pub(crate) fn start_of(update: Update) -> i64
    ensures { result ≡ start_of update }
{
    match update {
        Update::Row { start, .. } => start,
        Update::Value { start, .. } => start,
        Update::NoValue { start } => start,
        Update::KnownUpTo { watermark } => watermark,
    }
}

// The watermark after an update whose times are in range.
pub(crate) fn watermark_after(update: Update) -> i64
    requires { in_range update ≡ true }
    ensures { result ≡ watermark_after update }
{
    match update {
        Update::Row { end, .. } => end,
        Update::Value { start, .. } => start + 1,
        Update::NoValue { start } => (start + 1).min(T),
        Update::KnownUpTo { watermark } => watermark,
    }
}

// The watermark that an update whose times are in range gives to its input.
pub(crate) fn given_by(lateness: Option<u64>, update: Update) -> i64
    requires { in_range update ≡ true }
    ensures { result ≡ given_by lateness update }
{
    match update {
        Update::KnownUpTo { watermark } => watermark,
        _ => less_late(lateness, watermark_after(update)),
    }
}

// Whether an update starts below an end; each does if there is none.
pub(crate) fn is_due(end: Option<i64>, update: Update) -> bool
    ensures { result ≡ is_due end update }
{
    match end {
        Some(end) => start_of(update) < end,
        None => true,
    }
}

// An edge with a watermark and no open row.
pub(crate) fn bare(watermark: i64) -> Edge
    ensures { result ≡ bare watermark }
{
    Edge {
        open_row: None,
        watermark,
    }
}

// Whether an update is allowed after a watermark, if an open row counts for nothing.
pub(crate) fn fits_after(watermark: i64, update: Update) -> bool
    ensures { result ≡ is_none (update_fault false (bare watermark) update) }
{
    update_fault(false, bare(watermark), update).is_none()
}

// An edge after an update whose times are in range.
pub(crate) fn moved(edge: Edge, update: Update) -> Edge
    requires { in_range update ≡ true }
    ensures { result ≡ moved update edge }
{
    Edge {
        open_row: opened_by(edge, update),
        watermark: watermark_after(update),
    }
}

// The open row after an update.
fn opened_by(edge: Edge, update: Update) -> Option<OpenRow>
    ensures { result ≡ opened_by edge update }
{
    match update {
        Update::Row { .. } => None,
        Update::Value { start, value } => Some(OpenRow { start, value }),
        Update::NoValue { .. } => None,
        Update::KnownUpTo { .. } => edge.open_row,
    }
}
