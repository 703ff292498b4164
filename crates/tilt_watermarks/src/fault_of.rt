// Why lines aren't taken.
ghost use Rattle.std.specs.Prelude.{◌≡◌};
ghost use Rattle.tilt_watermarks.specs.Steps.{fault_by, is_ahead, is_far, is_overlap, judged_by, rule_broken};

use crate::fault::TakeFault;
use crate::lanes::Lanes;
use crate::less::less;
use crate::updates::{bare, start_of};
use tilt_base::T;
use tilt_feed::{Edge, EventFault, update_fault};
use tilt_feed_line::Line;

// The first rule of feeds that a line breaks, or `None` if it breaks none.
pub(crate) fn rule_broken(
    lateness: Option<u64>,
    finished: bool,
    lanes: &Lanes,
    line: Line,
) -> Option<EventFault>
    ensures { result ≡ rule_broken lateness finished lanes.now.lanes.items line }
{
    match line {
        Line::Update { input, update } => update_fault(
            finished,
            judged_by(lateness, lanes.edge_at(input)),
            update,
        ),
        Line::AllKnownUpTo { watermark } => {
            if finished {
                Some(EventFault::Finished)
            } else if -T <= watermark && watermark <= T {
                None
            } else {
                Some(EventFault::OutOfRange)
            }
        }
        Line::Finish => {
            if finished {
                Some(EventFault::Finished)
            } else {
                None
            }
        }
    }
}

// The edge by which an update is judged.
fn judged_by(lateness: Option<u64>, edge: Edge) -> Edge
    ensures { result ≡ judged_by lateness edge }
{
    match lateness {
        Some(_) => bare(edge.watermark),
        None => edge,
    }
}

// Whether a line doesn't fit among the updates that its input holds.
pub(crate) fn is_overlap(lateness: Option<u64>, lanes: &Lanes, line: Line) -> bool
    ensures { result ≡ is_overlap lateness lanes.now.lanes.items line }
{
    match line {
        Line::Update { input, update } => lanes.overlaps_at(lateness, input, update),
        Line::AllKnownUpTo { .. } => false,
        Line::Finish => false,
    }
}

// Whether a line starts above the latest watermark by more than `ahead` ticks.
pub(crate) fn is_ahead(ahead: Option<u64>, latest: Option<i64>, line: Line) -> bool
    ensures { result ≡ is_ahead ahead latest line }
{
    match line {
        Line::Update { update, .. } => is_far(ahead, latest, start_of(update)),
        Line::AllKnownUpTo { watermark } => is_far(ahead, latest, watermark),
        Line::Finish => false,
    }
}

// Whether a start is above the latest watermark by more than `ahead` ticks.
fn is_far(ahead: Option<u64>, latest: Option<i64>, start: i64) -> bool
    ensures { result ≡ is_far ahead latest start }
{
    match (ahead, latest) {
        (Some(ticks), Some(latest)) => latest < less(ticks, start),
        _ => false,
    }
}

// Why a line isn't taken: a broken rule comes first, and then an overlap.
pub(crate) fn fault_by(rule: Option<EventFault>, overlap: bool, far: bool) -> Option<TakeFault>
    ensures { result ≡ fault_by rule overlap far }
{
    match rule {
        Some(rule) => Some(TakeFault::NotAllowed(rule)),
        None => {
            if overlap {
                Some(TakeFault::Overlap)
            } else if far {
                Some(TakeFault::Ahead)
            } else {
                None
            }
        }
    }
}
