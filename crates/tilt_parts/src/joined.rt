// Lists of snapshots that were taken from parts, joined at their cuts.
ghost use Rattle.std.specs.Prelude.{◌≡◌, ℤ, IfOk, OnOk};
ghost use Rattle.tilt_parts.specs.Parts.{joint};
ghost use Rattle.tilt_parts.specs.Joined.{IsMidway};
ghost use Rattle.tilt_stream.specs.Snap.{AreSnapshots};
ghost use Rattle.tilt_stream.specs.Snapshots.{snapshots};
ghost use Rattle.tilt_stream.specs.Stream.{Stream};

use crate::part::Part;
use std::alloc::{AllocError as OutOfMemory, Global};
use tilt_stream::{Snap, SnapList};

// The snapshots of the first part, and after them those of the later ones.
pub(crate) fn joined(
    alloc: Global,
    first: &SnapList,
    later: &[Part],
) -> Result<SnapList, OutOfMemory>
    requires { (x : Stream) × (lo : ℤ) × (hi : ℤ) × IsMidway x lo hi first.now later.now }
    ensures { (x : Stream) (lo hi : ℤ) → IsMidway x lo hi first.now later.now → IfOk result (λ list. list ≡ snapshots x lo hi) }
{
    let mut list = SnapList::new(alloc);
    list.append(first.as_slice())?;
    for part in later {
        join(&mut list, &part.taken)?;
    }
    Ok(list)
}

// Goes on by another list from a cut.
fn join(list: &mut SnapList, next: &SnapList) -> Result<(), OutOfMemory>
    requires { AreSnapshots (joint list.old next.now) }
    ensures { OnOk result (list.new ≡ joint list.old next.now) }
{
    match (list.pop(), next.as_slice().split_first()) {
        (Some(open), Some((first, rest))) => {
            list.push(Snap {
                start: open.start,
                ..*first
            })?;
            list.append(rest)
        }
        (None, Some(_)) => list.append(next.as_slice()),
        (_, None) => Ok(()),
    }
}
