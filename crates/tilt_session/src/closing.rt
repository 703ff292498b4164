// What is printed of snapshots up to a tick.
ghost use Rattle.std.specs.Prelude.{◌≡◌, ◌≤ℤ◌, neg_ℤ, slice_get};
ghost use Rattle.std.specs.Option.{ForSome};
ghost use Rattle.tilt_base.specs.declared.limits.TheConstants.{WIDE};
ghost use Rattle.tilt_session.specs.Emitted.{closed, open_start};
ghost use Rattle.tilt_stream.specs.Pieces.{joined_from, last_start, without_last};

use tilt_checkpoint::Frame;
use tilt_stream::{SnapList, join_open};

// Snapshots whose end is known, and the start of the one whose end isn't.
#[derive(Drop)]
pub(crate) struct Closed {
    pub(crate) printed: SnapList,
    pub(crate) open_start: Option<i64>,
}

// Of snapshots up to a tick, those whose end is known, and the start of the one whose end isn't: of the last, before the end of the
// output.
pub(crate) fn close(frame: Frame, last: i64, list: SnapList) -> Closed
    ensures printed { result.printed ≡ closed frame last list }
    ensures begun { result.open_start ≡ open_start frame last list }
{
    if last < frame.end {
        without_last(list)
    } else {
        Closed {
            printed: list,
            open_start: None,
        }
    }
}

// All but the last one, and where that one starts.
fn without_last(mut list: SnapList) -> Closed
    ensures printed { result.printed ≡ without_last list }
    ensures begun { result.open_start ≡ last_start list }
{
    match list.pop() {
        Some(last) => Closed {
            printed: list,
            open_start: Some(last.start),
        },
        None => Closed {
            printed: list,
            open_start: None,
        },
    }
}

// The snapshots, of which the first goes on from where another began, where one did.
pub(crate) fn join_from(begun: Option<i64>, list: SnapList) -> SnapList
    requires low { ForSome begun (λ start. neg_ℤ WIDE ≤ℤ start) }
    requires earlier { ForSome begun (λ start. ForSome (slice_get list 0) (λ first. start ≤ℤ first.start)) }
    ensures { result ≡ joined_from begun list }
{
    match begun {
        Some(start) if !list.is_empty() => join_open(list, start),
        _ => list,
    }
}
