// What a loop reads.
ghost use Rattle.std.specs.Prelude.{◌≡◌, ◌≤◌, ℕ, List, [], get_or, length, neg_ℤ, slice_get};
ghost use Rattle.tilt_base.specs.declared.limits.TheConstants.{WIDE};
ghost use Rattle.tilt_stream.specs.Snap.{InOrder, Snapshot};

use tilt_stream::{Buffer, Snap};

/// The buffers that a loop reads, by their numbers: first the buffers of the inputs, then the buffers of the loops. A buffer that doesn't
/// exist is empty.
pub trait Buffers {
    /// For each buffer, all snapshots that were made so far.
    ghost lists: { Self → List (List Snapshot) };

    /// For each buffer, how many of its first snapshots aren't kept any more.
    ghost forgotten: { Self → List ℕ };

    /// How many snapshots were made so far, including those that aren't kept any more. Their times lie in
    /// `-WIDE..=WIDE`.
    fn made(&self, buffer: usize) -> usize
        ensures count { result ≡ length (get_or (lists self.now) buffer []) }
        ensures in_order { InOrder (neg_ℤ WIDE) WIDE (get_or (lists self.now) buffer []) };

    /// The place of the first snapshot that is kept, counted from 0 at the first that was made.
    fn first_kept(&self, buffer: usize) -> usize
        ensures { result ≡ get_or (forgotten self.now) buffer 0 };

    /// The snapshot at a place, counted in the same way, or none if no more were made.
    fn at(&self, buffer: usize, place: usize) -> Option<Snap>
        requires kept { get_or (forgotten self.now) buffer 0 ≤ place }
        ensures snap { result ≡ slice_get (get_or (lists self.now) buffer []) place }
        ensures in_order { InOrder (neg_ℤ WIDE) WIDE (get_or (lists self.now) buffer []) };
}

// The buffer of a number.
#[derive(Drop)]
pub(crate) struct BufferAt<'a, S> {
    pub(crate) buffers: &'a S,
    pub(crate) number: usize,
}

impl<S: Buffers> Buffer for BufferAt<'_, S> {
    ghost list = { λ b. get_or (S.lists b.buffers.now) b.number [] };

    ghost forgotten = { λ b. get_or (S.forgotten b.buffers.now) b.number 0 };

    #[inline]
    fn made(&self) -> usize {
        self.buffers.made(self.number)
    }

    #[inline]
    fn first_kept(&self) -> usize {
        self.buffers.first_kept(self.number)
    }

    #[inline]
    fn at(&self, place: usize) -> Option<Snap> {
        self.buffers.at(self.number, place)
    }
}
