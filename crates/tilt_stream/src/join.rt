// A list whose first snapshot began earlier.
ghost use Rattle.std.specs.Prelude.{◌≡◌, ◌<◌, neg_ℤ, ◌≤ℤ◌, length, slice_get};
ghost use Rattle.std.specs.Option.{ForSome};
ghost use Rattle.tilt_base.specs.declared.limits.TheConstants.{WIDE};
ghost use Rattle.tilt_stream.specs.Snap.{joined_open};

use crate::snap_list::SnapList;

/// The list with another start of its first snapshot, which isn't above the one that it had; all else stays. It takes no memory.
pub fn join_open(mut list: SnapList, open_start: i64) -> SnapList
    requires some { 0 < length list }
    requires low { neg_ℤ WIDE ≤ℤ open_start }
    requires earlier { ForSome (slice_get list 0) (λ first. open_start ≤ℤ first.start) }
    ensures { result ≡ joined_open open_start list }
{
    list.open_at(open_start);
    list
}
