// What a loop has made while its rows come in.
ghost use Rattle.std.specs.Prelude.{◌≡◌, ◌≤◌, ◌≤ℤ◌, neg_ℤ, [], None, OnErr, OnOk, length, slice_get};
ghost use Rattle.tilt_base.specs.declared.limits.TheConstants.{WIDE};
ghost use Rattle.tilt_engine.specs.Forgetting.{later_made};
ghost use Rattle.tilt_engine.specs.Stock.{IsPieceOn, made_list, pieces, reached, restarted, with_settled, with_waiting};
ghost use Rattle.tilt_engine.specs.Wanted.{IsUnread};

use crate::wanted::count_unread;
use std::alloc::{AllocError as OutOfMemory, Global};
use std::marker::Model;
use tilt_stream::{Buffer, Snap, SnapList};

// What a loop has made: its settled snapshots, and where the last of them ends. Then the next one, if its end may still change, and where
// the stretch of the loop ends.
#[derive(Drop)]
pub(crate) struct Made {
    made: SnapList,
    settled: i64,
    waiting: Option<Snap>,
    hi: i64,
}

impl Model for Made {
    ghost use Rattle.tilt_engine.specs.Stock.{MadeParts, IsMade, coded_made};

    ghost Value = { MadeParts };

    ghost coded = { coded_made };

    ghost view = { λ m. record { made = m.made; settled = m.settled; waiting = m.waiting; hi = m.hi } };

    ghost invariant = { λ m. IsMade (record { made = m.made; settled = m.settled; waiting = m.waiting; hi = m.hi }) };
}

impl Buffer for Made {
    ghost use Rattle.tilt_engine.specs.Stock.{made_list};

    ghost list = { made_list };

    ghost forgotten = { λ _. 0 };

    #[inline]
    fn made(&self) -> usize {
        let count = self.count();
        if self.reached() < self.hi {
            count + 1
        } else {
            count
        }
    }

    #[inline]
    fn first_kept(&self) -> usize {
        0
    }

    #[inline]
    fn at(&self, place: usize) -> Option<Snap> {
        // What is kept is in order: that is known from here on.
        let _hi = self.hi;
        match self.piece(place) {
            Some(snap) => Some(snap),
            None => self.rest(place),
        }
    }
}

impl Made {
    // Nothing, of a loop on a stretch.
    pub(crate) fn new(alloc: Global, lo: i64, hi: i64) -> Made
        requires low { neg_ℤ WIDE ≤ℤ lo }
        requires within { lo ≤ℤ hi }
        requires high { hi ≤ℤ WIDE }
        ensures { result ≡ record { made = []; settled = lo; waiting = None; hi = hi } }
    {
        Made {
            made: SnapList::new(alloc),
            settled: lo,
            waiting: None,
            hi,
        }
    }

    // Where the settled snapshots end.
    #[inline]
    pub(crate) fn settled(&self) -> i64
        ensures { result ≡ self.now.settled }
    {
        self.settled
    }

    // Where the stretch of the loop ends.
    #[inline]
    pub(crate) fn hi(&self) -> i64
        ensures { result ≡ self.now.hi }
    {
        self.hi
    }

    // The snapshot after the settled ones, if it was made.
    #[inline]
    pub(crate) fn waiting(&self) -> Option<Snap>
        ensures { result ≡ self.now.waiting }
    {
        self.waiting
    }

    // How many snapshots it has made.
    #[inline]
    fn count(&self) -> usize
        ensures { result ≡ length (pieces self.now) }
    {
        match self.waiting {
            Some(_) => self.made.len() + 1,
            None => self.made.len(),
        }
    }

    // Where the last one ends.
    #[inline]
    pub(crate) fn reached(&self) -> i64
        ensures { result ≡ reached self.now }
    {
        match self.waiting {
            Some(snap) => snap.end,
            None => self.settled,
        }
    }

    // The snapshot at a place, counted from 0, or none if it hasn't made so many.
    #[inline]
    pub(crate) fn piece(&self, place: usize) -> Option<Snap>
        ensures { result ≡ slice_get (pieces self.now) place }
    {
        if place < self.made.len() {
            return Some(self.made.get(place));
        }
        if place == self.made.len() {
            return self.waiting;
        }
        None
    }

    // The null snapshot for the rest of the stretch, at the place after the last snapshot.
    #[inline]
    fn rest(&self, place: usize) -> Option<Snap>
        requires { length (pieces self.now) ≤ place }
        ensures { result ≡ slice_get (made_list self.now) place }
    {
        if place == self.count() && self.reached() < self.hi {
            Some(Snap {
                start: self.reached(),
                end: self.hi,
                value: None,
            })
        } else {
            None
        }
    }

    // How many settled snapshots are kept.
    pub(crate) fn kept(&self) -> usize
        ensures { result ≡ length self.now.made }
    {
        self.made.len()
    }

    // How many of its settled snapshots no turn reads, of which the turns read a first tick, or nothing.
    pub(crate) fn count_unread(&self, first: Option<i64>) -> usize
        ensures { IsUnread first self.now.made result }
    {
        count_unread(self.made.as_slice(), first)
    }

    // Lets its first settled snapshots go, as many as that. If memory runs out, nothing changes.
    pub(crate) fn forget(&mut self, alloc: Global, count: usize) -> Result<(), OutOfMemory>
        requires { count ≤ length self.old.made }
        ensures { OnOk result (self.new ≡ later_made count self.old) }
    {
        let mut rest = SnapList::new(alloc);
        rest.append(&self.made.as_slice()[count..])?;
        self.made = rest;
        Ok(())
    }

    // Lets the snapshot go whose end may still change.
    pub(crate) fn restart(&mut self)
        ensures { self.new ≡ restarted self.old }
    {
        self.waiting = None;
    }

    // Takes a settled snapshot. If memory runs out, nothing changes.
    pub(crate) fn settle(&mut self, snap: Snap) -> Result<(), OutOfMemory>
        requires on { IsPieceOn self.old.settled self.old.hi snap }
        ensures ok { OnOk result (self.new ≡ with_settled snap self.old) }
        ensures err { OnErr result (self.new ≡ self.old) }
    {
        self.made.push(snap)?;
        self.settled = snap.end;
        self.waiting = None;
        Ok(())
    }

    // Takes a snapshot whose end may still change.
    pub(crate) fn wait(&mut self, snap: Snap)
        requires on { IsPieceOn self.old.settled self.old.hi snap }
        ensures { self.new ≡ with_waiting snap self.old }
    {
        self.waiting = Some(snap);
    }
}
