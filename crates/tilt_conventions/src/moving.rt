// Updates that are handed on, and the edge after each.
ghost use Rattle.std.specs.Prelude.{◌≡◌, ◌<◌, ◌+◌, ◌++◌, ◌≤ℤ◌, [], ◌∷◌, vec_len};
ghost use Rattle.std.specs.Vec.{vec_capacity};
ghost use Rattle.tilt_base.specs.declared.limits.TheConstants.{T};
ghost use Rattle.tilt_conventions.specs.Steps.{moved, update_start};
ghost use Rattle.tilt_feed.specs.Events.{opened_by, watermark_after};

use tilt_base::T;
use tilt_feed::{Edge, OpenRow, Update};

// Hands on an update, for which there is room, and moves the edge by it.
pub(crate) fn push(update: Update, edge: &mut Edge, updates: &mut Vec<Update>)
    requires times { update_start update ≤ℤ T }
    requires room { vec_len updates.old < vec_capacity updates.old }
    ensures edge { edge.new ≡ moved update edge.old }
    ensures updates { updates.new.items ≡ updates.old.items ++ update ∷ [] }
    ensures capacity { vec_capacity updates.new ≡ vec_capacity updates.old }
    ensures len { vec_len updates.new ≡ vec_len updates.old + 1 }
{
    updates.push_reserved(update);
    *edge = Edge {
        open_row: opened_by(*edge, update),
        watermark: watermark_after(update),
    };
}

// The open row after an update.
fn opened_by(edge: Edge, update: Update) -> Option<OpenRow>
    ensures { result ≡ opened_by edge update }
{
    match update {
        Update::Row { .. } => None,
        Update::Value { start, value } => Some(OpenRow { start, value }),
        Update::NoValue { .. } => None,
        Update::KnownUpTo { .. } => edge.open_row,
    }
}

// The watermark after an update that starts at `T` or below it.
fn watermark_after(update: Update) -> i64
    requires { update_start update ≤ℤ T }
    ensures { result ≡ watermark_after update }
{
    match update {
        Update::Row { end, .. } => end,
        Update::Value { start, .. } => start + 1,
        Update::NoValue { start } => (start + 1).min(T),
        Update::KnownUpTo { watermark } => watermark,
    }
}
