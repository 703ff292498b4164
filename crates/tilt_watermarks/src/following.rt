// What a line does, `idle` aside.
ghost use Rattle.std.specs.Prelude.{◌≡◌, ◌≤◌, ◌+◌, ◌++◌, false, if◌then◌else◌, is_ok, length, None, vec_len};
ghost use Rattle.std.specs.Vec.{vec_capacity};
ghost use Rattle.tilt_watermarks.specs.Machine.{HasTimes};
ghost use Rattle.tilt_watermarks.specs.Steps.{events_of, greater, greatest_after, held_count, idle_tick, inputs_after};
ghost use Rattle.tilt_watermarks.specs.Steps.{is_end, is_overlap};

use crate::lanes::Lanes;
use crate::less::less;
use crate::updates::given_by;
use std::alloc::AllocError as OutOfMemory;
use tilt_feed::Event;
use tilt_feed_line::Line;

// The inputs follow a line that fits and whose times are in range, by events for which there is room. If memory runs out, nothing
// changes.
pub(crate) fn follow(
    lateness: Option<u64>,
    lanes: &mut Lanes,
    line: Line,
    events: &mut Vec<Event>,
) -> Result<(), OutOfMemory>
    requires none { lateness ≡ None → held_count lanes.old.lanes.items ≡ 0 }
    requires fits { is_overlap lateness lanes.old.lanes.items line ≡ false }
    requires times { HasTimes line }
    requires room { vec_len events.old + held_count lanes.old.lanes.items + length lanes.old.lanes.items + 2 ≤ vec_capacity events.old }
    ensures lanes { lanes.new.lanes.items
        ≡ (if is_ok result then inputs_after lateness line lanes.old.lanes.items else lanes.old.lanes.items) }
    ensures events { events.new.items
        ≡ (if is_ok result then events.old.items ++ events_of lateness line lanes.old.lanes.items else events.old.items) }
    ensures capacity { vec_capacity events.new ≡ vec_capacity events.old }
    ensures len { vec_len events.new + held_count lanes.new.lanes.items
        ≤ vec_len events.old + held_count lanes.old.lanes.items + length lanes.old.lanes.items + 2 }
    ensures none { lateness ≡ None → held_count lanes.new.lanes.items ≡ 0 }
{
    match line {
        Line::Update { input, update } => lanes.enter(lateness, input, update, events),
        Line::AllKnownUpTo { watermark } => {
            lanes.raise_all(Some(watermark), events);
            Ok(())
        }
        Line::Finish => {
            lanes.finish(events);
            Ok(())
        }
    }
}

// Whether a line ends the feed.
pub(crate) fn is_end(line: Line) -> bool
    ensures { result ≡ is_end line }
{
    match line {
        Line::Update { .. } => false,
        Line::AllKnownUpTo { .. } => false,
        Line::Finish => true,
    }
}

// The largest watermark after a line whose times are in range.
pub(crate) fn greatest_after(
    lateness: Option<u64>,
    line: Line,
    greatest: Option<i64>,
) -> Option<i64>
    requires { HasTimes line }
    ensures { result ≡ greatest_after lateness line greatest }
{
    match line {
        Line::Update { update, .. } => Some(greater(greatest, given_by(lateness, update))),
        Line::AllKnownUpTo { watermark } => Some(greater(greatest, watermark)),
        Line::Finish => greatest,
    }
}

// The greater one of a watermark and the largest before it.
fn greater(greatest: Option<i64>, tick: i64) -> i64
    ensures { result ≡ greater greatest tick }
{
    match greatest {
        Some(greatest) => greatest.max(tick),
        None => tick,
    }
}

// Up to where each input is known at least, if that is said.
pub(crate) fn idle_tick(idle: Option<u64>, finished: bool, greatest: Option<i64>) -> Option<i64>
    ensures { result ≡ idle_tick idle finished greatest }
{
    match (idle, greatest) {
        (Some(ticks), Some(greatest)) => {
            if finished {
                None
            } else {
                Some(less(ticks, greatest))
            }
        }
        _ => None,
    }
}
