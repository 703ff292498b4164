// What a cursor reads.
ghost use Rattle.std.specs.Prelude.{◌≡◌, ◌≤◌, ℕ, List, length, neg_ℤ, slice_get};
ghost use Rattle.tilt_base.specs.declared.limits.TheConstants.{WIDE};
ghost use Rattle.tilt_stream.specs.Snap.{InOrder, Snapshot};

use crate::rows::Rows;
use crate::snap::Snap;
use crate::snap_list::SnapList;

/// Snapshots or rows in the order of time, by their places. A buffer may make them one after the other, and may keep only the
/// later ones of those that it made.
pub trait Buffer {
    /// All that were made so far.
    ghost list: { Self → List Snapshot };

    /// How many of the first ones aren't kept any more.
    ghost forgotten: { Self → ℕ };

    /// How many were made so far, those that aren't kept any more included. Their times lie in `-WIDE..=WIDE`.
    fn made(&self) -> usize
        ensures count { result ≡ length (list self.now) }
        ensures in_order { InOrder (neg_ℤ WIDE) WIDE (list self.now) };

    /// The place of the first one that is kept, counted from 0 at the first that was made.
    fn first_kept(&self) -> usize
        ensures { result ≡ forgotten self.now };

    /// The one at a place, counted in the same way, or none if no more were made.
    fn at(&self, place: usize) -> Option<Snap>
        requires kept { forgotten self.now ≤ place }
        ensures snap { result ≡ slice_get (list self.now) place }
        ensures in_order { InOrder (neg_ℤ WIDE) WIDE (list self.now) };
}

impl Buffer for SnapList {
    ghost list = { λ snaps. snaps };

    ghost forgotten = { λ _. 0 };

    fn made(&self) -> usize {
        self.as_slice().len()
    }

    fn first_kept(&self) -> usize {
        0
    }

    fn at(&self, place: usize) -> Option<Snap> {
        self.as_slice().get(place).copied()
    }
}

impl Buffer for Rows {
    ghost list = { λ rows. rows };

    ghost forgotten = { λ _. 0 };

    fn made(&self) -> usize {
        self.as_slice().len()
    }

    fn first_kept(&self) -> usize {
        0
    }

    fn at(&self, place: usize) -> Option<Snap> {
        self.as_slice().get(place).copied()
    }
}
