// The ring of one loop.
ghost use Rattle.std.specs.Prelude.{◌≡◌, ◌<◌, ◌≤◌, ◌+◌, ◌-◌, ◌^◌, ◌++◌, List, [], drop, length};
ghost use Rattle.std.specs.Prelude.{slice_get, Some, neg_ℤ, ◌<ℤ◌, ◌≤ℤ◌, IfOk, OnOk, OnErr, IsTrue, ◌↔◌};
ghost use Rattle.std.specs.Option.{ForSome};
ghost use Rattle.tilt_base.specs.declared.limits.TheConstants.{WIDE};
ghost use Rattle.tilt_pipe.specs.Positions.{kept_ring, later_ring};
ghost use Rattle.tilt_pipe.specs.Rings.{IsNextEnd};
ghost use Rattle.tilt_stream.specs.Snap.{Snapshot, InOrder, gap_before, last_end};

use crate::snap_ring::SnapRing;
use std::alloc::{AllocError as OutOfMemory, Global};
use std::marker::Model;
use tilt_stream::Snap;

// What is kept of a loop's buffer: the snapshots in the ring, and how many were let go before them. Also where the next one starts, and the
// end of the loop's stretch.
#[derive(Drop)]
pub(crate) struct LoopRing {
    ring: SnapRing,
    forgotten: usize,
    start: i64,
    hi: i64,
}

impl Model for LoopRing {
    ghost use Rattle.tilt_pipe.specs.Positions.{RingParts, coded_ring};

    ghost Value = { RingParts };

    ghost coded = { coded_ring };

    ghost view = { λ r. record { held = r.ring; forgotten = r.forgotten; start = r.start; hi = r.hi } };
}

impl LoopRing {
    // An empty ring of a loop that is at this start.
    pub(crate) fn new(alloc: Global, start: i64, hi: i64) -> Result<LoopRing, OutOfMemory>
        ensures { IfOk result (λ r. r ≡ record { held = []; forgotten = 0; start = start; hi = hi }) }
    {
        Ok(LoopRing {
            ring: SnapRing::new(alloc)?,
            forgotten: 0,
            start,
            hi,
        })
    }

    // Where the next snapshot starts.
    #[inline]
    pub(crate) fn start(&self) -> i64
        ensures { result ≡ self.now.start }
    {
        self.start
    }

    // Whether its loop is before the end of its stretch.
    #[inline]
    pub(crate) fn is_open(&self) -> bool
        ensures { IsTrue result ↔ (self.now.start <ℤ self.now.hi) }
    {
        self.start < self.hi
    }

    // How many snapshots were made, and one more if its loop is before the end of its stretch.
    #[inline]
    pub(crate) fn made(&self) -> usize
        requires fits { self.now.forgotten + length self.now.held < 2 ^ 63 }
        ensures { result ≡ self.now.forgotten + length (self.now.held ++ gap_before (Some self.now.start) self.now.hi) }
    {
        let made = self.forgotten + self.ring.len();
        if self.is_open() { made + 1 } else { made }
    }

    // How many snapshots were let go.
    #[inline]
    pub(crate) fn forgotten(&self) -> usize
        ensures { result ≡ self.now.forgotten }
    {
        self.forgotten
    }

    // How many snapshots are kept.
    #[inline]
    pub(crate) fn len(&self) -> usize
        ensures { result ≡ length self.now.held }
    {
        self.ring.len()
    }

    // What a turn reads at a place, counted from 0 at the first snapshot that was made. After the snapshots that were made, if its loop is
    // before the end of its stretch, there is one null snapshot that stands for the rest of it.
    #[inline]
    pub(crate) fn at(&self, place: usize) -> Option<Snap>
        requires kept { self.now.forgotten ≤ place }
        ensures { result ≡ slice_get (self.now.held ++ gap_before (Some self.now.start) self.now.hi) (place - self.now.forgotten) }
    {
        match self.ring.at(place - self.forgotten) {
            Some(snap) => Some(snap),
            None => self.open_at(place),
        }
    }

    // The same at a place after those that were made, which a turn seldom asks for.
    #[cold]
    #[inline(never)]
    fn open_at(&self, place: usize) -> Option<Snap>
        requires kept { self.now.forgotten ≤ place }
        requires past { length self.now.held ≤ place - self.now.forgotten }
        ensures { result ≡ slice_get (self.now.held ++ gap_before (Some self.now.start) self.now.hi) (place - self.now.forgotten) }
    {
        if self.is_open() && place - self.forgotten == self.ring.len() {
            Some(Snap {
                start: self.start,
                end: self.hi,
                value: None,
            })
        } else {
            None
        }
    }

    // Goes on by a snapshot that starts where the last one ends: it is taken in if it is read, and otherwise it is let go at once. If
    // memory runs out, all is as before.
    #[inline(always)]
    pub(crate) fn keep(&mut self, snap: Snap, read: bool) -> Result<(), OutOfMemory>
        requires touches { ForSome (last_end self.old.held) (λ end. end ≡ snap.start) }
        requires low { neg_ℤ WIDE ≤ℤ snap.start }
        requires high { snap.end ≤ℤ WIDE }
        requires fits { self.old.forgotten + 1 < 2 ^ 64 }
        ensures ok { OnOk result (self.new ≡ kept_ring read self.old snap) }
        ensures err { OnErr result (self.new ≡ self.old) }
    {
        if read {
            self.ring.push(snap)?;
        } else {
            self.forgotten += 1;
        }
        self.start = snap.end;
        Ok(())
    }

    // Where the first snapshot that is kept ends.
    #[inline]
    pub(crate) fn first_end(&self) -> Option<i64>
        ensures { (made : List Snapshot) → InOrder (neg_ℤ WIDE) WIDE made → self.now.held ≡ drop self.now.forgotten made
            → IsNextEnd self.now.forgotten made result }
    {
        Some(self.ring.at(0)?.end)
    }

    // Lets the first snapshot go.
    #[inline]
    pub(crate) fn let_first_go(&mut self)
        requires some { 0 < length self.old.held }
        requires fits { self.old.forgotten + length self.old.held < 2 ^ 64 }
        ensures { self.new ≡ later_ring self.old }
    {
        self.ring.pop_front();
        self.forgotten += 1;
    }
}
