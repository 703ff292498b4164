// Which updates are allowed.
ghost use Rattle.std.specs.Prelude.{◌≡◌};
ghost use Rattle.tilt_feed.specs.Events.{update_fault, in_range, comes_at, has_ticks, continues};

use crate::edge::Edge;
use crate::fault::EventFault;
use crate::update::Update;
use tilt_base::{Cell, T};

/// The first rule that an update breaks, or `None` if it is allowed. The edge is the one of its input, and `finished` says
/// whether the feed is finished.
pub fn update_fault(finished: bool, edge: Edge, update: Update) -> Option<EventFault>
    ensures { result ≡ update_fault finished edge update }
{
    if finished {
        return Some(EventFault::Finished);
    }
    if !in_range(update) {
        return Some(EventFault::OutOfRange);
    }
    if comes_at(edge, update) < edge.watermark {
        return Some(EventFault::Late);
    }
    if !has_ticks(update) {
        return Some(EventFault::NoTick);
    }
    None
}

// Whether all its times are in `-T..=T`.
fn in_range(update: Update) -> bool
    ensures { result ≡ in_range update }
{
    match update {
        Update::Row { start, end, .. } => -T <= start && start <= T && -T <= end && end <= T,
        Update::Value { start, .. } => -T <= start && start <= T,
        Update::NoValue { start } => -T <= start && start <= T,
        Update::KnownUpTo { watermark } => -T <= watermark && watermark <= T,
    }
}

// The tick that isn't before the watermark if the update isn't late.
fn comes_at(edge: Edge, update: Update) -> i64
    ensures { result ≡ comes_at edge update }
{
    match update {
        Update::Row { start, end, value } => {
            if continues(edge, start, value) {
                end
            } else {
                start
            }
        }
        Update::Value { start, .. } => start,
        Update::NoValue { start } => start,
        Update::KnownUpTo { watermark } => watermark,
    }
}

// Whether its start is before its end.
fn has_ticks(update: Update) -> bool
    ensures { result ≡ has_ticks update }
{
    match update {
        Update::Row { start, end, .. } => start < end,
        Update::Value { start, .. } => start < T,
        Update::NoValue { .. } => true,
        Update::KnownUpTo { .. } => true,
    }
}

/// Whether a row has the start and the value of the open row.
pub fn continues(edge: Edge, start: i64, value: Cell) -> bool
    ensures { result ≡ continues edge.open_row start value }
{
    match (edge.open_row, value) {
        (Some(row), Some(value)) => row.start == start && row.value == value,
        _ => false,
    }
}
