// Snapshots in a ring.
ghost use Rattle.std.specs.Prelude.{◌≡◌, ◌<◌, ◌≤◌, [], ◌∷◌, ◌++◌, length, slice_get, Some, neg_ℤ, ◌≤ℤ◌, IfOk, OnOk, OnErr, MatchOption};
ghost use Rattle.std.specs.Option.{ForSome};
ghost use Rattle.tilt_base.specs.declared.limits.TheConstants.{WIDE};
ghost use Rattle.tilt_stream.specs.Snap.{last_end};

use circular_buffer::HeapCircularBuffer;
use std::alloc::{AllocError as OutOfMemory, Global};
use std::marker::Model;
use tilt_stream::Snap;

/// Snapshots that touch, with times in `-WIDE..=WIDE`, in a ring that doubles its size when it is full. The first ones can be let go.
#[derive(Drop)]
pub struct SnapRing {
    ring: HeapCircularBuffer<Snap>,
}

impl Model for SnapRing {
    ghost use Rattle.std.specs.Prelude.{List};
    ghost use Rattle.tilt_stream.specs.Snap.{Snapshot, AreSnapshots};

    ghost Value = { List Snapshot };

    ghost view = { λ r. r.ring.items };

    ghost invariant = { λ r. AreSnapshots r.ring.items };
}

// Adds a snapshot to a ring.
#[inline(always)]
fn push_back(ring: &mut HeapCircularBuffer<Snap>, snap: Snap) -> Result<(), OutOfMemory>
    ensures ok { OnOk result (ring.new.items ≡ ring.old.items ++ snap ∷ []) }
    ensures err { OnErr result (ring.new.items ≡ ring.old.items) }
{
    match ring.try_push_back(snap) {
        Ok(()) => Ok(()),
        Err(snap) => push_grown(ring, snap),
    }
}

// Adds a snapshot to a ring that is full, and is made larger for it: to twice its size, and by room for four at least.
#[cold]
#[inline(never)]
fn push_grown(ring: &mut HeapCircularBuffer<Snap>, snap: Snap) -> Result<(), OutOfMemory>
    requires { ring.old.capacity ≤ length ring.old.items }
    ensures ok { OnOk result (ring.new.items ≡ ring.old.items ++ snap ∷ []) }
    ensures err { OnErr result (ring.new.items ≡ ring.old.items) }
{
    let capacity = ring.capacity();
    ring.resize(capacity + capacity.max(4))?;
    ring.push_back(snap);
    Ok(())
}

impl SnapRing {
    /// No snapshots, and room for a few.
    pub fn new(alloc: Global) -> Result<SnapRing, OutOfMemory>
        ensures { IfOk result (λ ring. ring ≡ []) }
    {
        Ok(SnapRing {
            ring: HeapCircularBuffer::with_capacity(alloc, 4)?,
        })
    }

    /// Adds a snapshot that starts where the last one ends. If memory runs out, the ring holds what it held.
    #[inline(always)]
    pub fn push(&mut self, snap: Snap) -> Result<(), OutOfMemory>
        requires touches { ForSome (last_end self.old) (λ end. end ≡ snap.start) }
        requires low { neg_ℤ WIDE ≤ℤ snap.start }
        requires high { snap.end ≤ℤ WIDE }
        ensures ok { OnOk result (self.new ≡ self.old ++ snap ∷ []) }
        ensures err { OnErr result (self.new ≡ self.old) }
    {
        prove!(snap.start < snap.end);
        push_back(&mut self.ring, snap)?;
        Ok(())
    }

    /// Takes the first snapshot off: `None` exactly if there is none. It takes no memory.
    pub fn pop_front(&mut self) -> Option<Snap>
        ensures { MatchOption result ((self.old ≡ []) × (self.new ≡ [])) (λ first. self.old ≡ first ∷ self.new) }
    {
        self.ring.pop_front()
    }

    /// How many snapshots it holds.
    #[inline]
    pub fn len(&self) -> usize
        ensures { result ≡ length self.now }
    {
        self.ring.len()
    }

    /// The snapshot at a place, counted from 0.
    #[inline]
    pub fn get(&self, place: usize) -> Snap
        requires { place < length self.now }
        ensures { slice_get self.now place ≡ Some result }
    {
        *self.ring.get(place).unwrap()
    }

    // The same, or none if it doesn't hold that many.
    #[inline]
    pub(crate) fn at(&self, place: usize) -> Option<Snap>
        ensures { result ≡ slice_get self.now place }
    {
        self.ring.get(place).copied()
    }
}
