// A window over one buffer, which moves on with time.
ghost use Rattle.std.specs.Prelude.{◌≡◌, ◌<◌, ◌≤◌, ℤ, pos, neg_ℤ, ◌+ℤ◌, ◌*ℤ◌, ◌<ℤ◌, ◌≤ℤ◌, [], ◌∷◌, ◌++◌};
ghost use Rattle.std.specs.Prelude.{List, length, false, slice_get, Option, Some, IfSome, IsTrue, ◌↔◌, OnOk};
ghost use Rattle.std.specs.Prelude.{MatchOption};
ghost use Rattle.std.specs.Int.{int_max};
ghost use Rattle.tilt_base.specs.declared.limits.TheConstants.{OFFSET, WIDE};
ghost use Rattle.tilt_base.specs.Reduce.{numbers, reduce};
ghost use Rattle.tilt_code.specs.Body.{mapped};
ghost use Rattle.tilt_stream.specs.Marks.{IsNextMark, NamesNextMark};
ghost use Rattle.tilt_stream.specs.Snap.{Snapshot, ended_below};
ghost use Rattle.tilt_stream.specs.Stream.{cell_at, stream_of};
ghost use Rattle.tilt_turn.specs.Held.{Holds, Knows, MayBegin, MayKnow, MayMove, MovesTo, known_next};
ghost use Rattle.tilt_turn.specs.Kinds.{kind_cells, kind_reducer};
ghost use Rattle.tilt_turn.specs.Ready.{MayMap};
ghost use Rattle.tilt_turn.specs.declared.moving.NextMark.TheVariants.{Unknown};

use crate::kind::Kind;
use crate::maps::mapped;
use std::alloc::{AllocError as OutOfMemory, Global};
use std::collections::VecDeque;
use tilt_base::{Cell, Reducer};
use tilt_code::Loop;
use tilt_stream::{Buffer, Cursor};

// The cells that some ticks meet: one for the first tick, and one for each mark after it. The cursor is at the last tick, so no snapshot
// that ended before is looked at again. The next mark above the last tick is kept: as long as the last tick stays below it, the buffer
// isn't read.
#[derive(Drop)]
pub(crate) struct Moving {
    kind: Kind,
    marks: VecDeque<i64>,
    back: Cursor,
    next: NextMark,
}

// The next mark above the last tick of a window, or none if the buffer has none there. It can also be unknown, since the buffer may have
// got other marks above that tick.
#[derive(Clone, Copy)]
pub(crate) enum NextMark {
    Known(Option<i64>),
    Unknown,
}

// The buffer that a window goes over, and the map by which it takes the cells.
#[derive(Drop)]
pub(crate) struct Source<'a, 'b, B> {
    pub(crate) buffer: &'a B,
    pub(crate) each: &'b Loop,
    pub(crate) map: Option<u32>,
}

impl Moving {
    // A window that was never moved.
    pub(crate) fn new(alloc: Global, reducer: Reducer) -> Moving
        ensures reducer { kind_reducer result.kind ≡ reducer }
        ensures cells { kind_cells result.kind ≡ [] }
        ensures marks { result.marks.items ≡ [] }
        ensures back { result.back ≡ record { tick = neg_ℤ (pos 9223372036854775808); place = 0 } }
    {
        Moving {
            kind: Kind::new(alloc, reducer),
            marks: VecDeque::new(alloc),
            back: Cursor::new(),
            next: NextMark::Unknown,
        }
    }

    // Moves on to the ticks from a first to a last one.
    pub(crate) fn move_to<B: Buffer>(
        &mut self,
        source: &Source<'_, '_, B>,
        first: i64,
        last: i64,
        registers: &mut Vec<Cell>,
    ) -> Result<(), OutOfMemory>
        requires map { MayMap source.now.each.now.maps source.now.map }
        requires some { first ≤ℤ last }
        requires few { last ≤ℤ (first +ℤ pos 2 *ℤ OFFSET) }
        requires cursor { MayMove (B.list source.now.buffer.now) last self.old.back }
        requires kept { B.forgotten source.now.buffer.now ≤ ended_below first (B.list source.now.buffer.now) }
        requires begins { (begin : ℤ) × (begin ≤ℤ first)
            × MayBegin (B.list source.now.buffer.now) (mapped source.now.each.now.maps source.now.map) begin self.old }
        ensures moved { OnOk result (MovesTo (B.list source.now.buffer.now) last self.old self.new) }
        ensures held { OnOk result (Holds (B.list source.now.buffer.now) (mapped source.now.each.now.maps source.now.map) first self.new) }
    {
        self.begin_from(source, first, registers)?;
        self.extend(source, last, registers)
    }

    // Drops the cells that the ticks from a first one on don't meet, and holds the cell of the first tick at least.
    fn begin_from<B: Buffer>(
        &mut self,
        source: &Source<'_, '_, B>,
        first: i64,
        registers: &mut Vec<Cell>,
    ) -> Result<(), OutOfMemory>
        requires map { MayMap source.now.each.now.maps source.now.map }
        requires cursor { MayMove (B.list source.now.buffer.now) self.old.back.tick self.old.back }
        requires kept { B.forgotten source.now.buffer.now ≤ ended_below first (B.list source.now.buffer.now) }
        requires begins { (begin : ℤ) × (begin ≤ℤ first)
            × MayBegin (B.list source.now.buffer.now) (mapped source.now.each.now.maps source.now.map) begin self.old }
        ensures moved { OnOk result (MovesTo (B.list source.now.buffer.now) (int_max first self.old.back.tick) self.old self.new) }
        ensures held { OnOk result (Holds (B.list source.now.buffer.now) (mapped source.now.each.now.maps source.now.map) first self.new) }
    {
        if self.back.tick() < first {
            self.begin_at(source, first, registers)
        } else {
            self.find_next(source.buffer);
            self.drop_before(first)
        }
    }

    // Reads the next mark above the last tick from the buffer, if it isn't known.
    #[inline]
    fn find_next<B: Buffer>(&mut self, buffer: &B)
        requires knows { MayKnow (B.list buffer.now) self.old }
        requires kept { B.forgotten buffer.now ≤ ended_below self.old.back.tick (B.list buffer.now) }
        ensures knows { Knows (B.list buffer.now) self.new }
        ensures same { self.new ≡ record self.old { next = self.new.next } }
    {
        if let NextMark::Unknown = self.next {
            self.next = NextMark::Known(self.back.next(buffer));
        }
    }

    // Forgets the next mark above the last tick, so that it is read again before the window moves on.
    pub(crate) fn forget_next(&mut self)
        ensures { self.new ≡ record self.old { next = Unknown } }
    {
        self.next = NextMark::Unknown;
    }

    // Drops all cells, and holds the cell of a tick above all of them.
    fn begin_at<B: Buffer>(
        &mut self,
        source: &Source<'_, '_, B>,
        first: i64,
        registers: &mut Vec<Cell>,
    ) -> Result<(), OutOfMemory>
        requires map { MayMap source.now.each.now.maps source.now.map }
        requires cursor { MayMove (B.list source.now.buffer.now) first self.old.back }
        requires kept { B.forgotten source.now.buffer.now ≤ ended_below first (B.list source.now.buffer.now) }
        ensures moved { OnOk result (MovesTo (B.list source.now.buffer.now) first self.old self.new) }
        ensures held { OnOk result (Holds (B.list source.now.buffer.now) (mapped source.now.each.now.maps source.now.map) first self.new) }
    {
        self.kind.clear();
        self.marks.clear();
        self.push_at(source, first, registers)
    }

    // Drops the cells that the ticks from a first one on don't meet, of which the window holds one at least.
    fn drop_before(&mut self, first: i64) -> Result<(), OutOfMemory>
        requires some { first ≤ℤ self.old.back.tick }
        ensures held { OnOk result ((list : List Snapshot) (by_map : Option ℤ → Option ℤ) (begin : ℤ) → begin ≤ℤ first
            → Holds list by_map begin self.old → Holds list by_map first self.new) }
        ensures back { self.new.back ≡ self.old.back }
        ensures next { self.new.next ≡ self.old.next }
        ensures reducer { OnOk result (kind_reducer self.new.kind ≡ kind_reducer self.old.kind) }
    {
        while self.has_mark_within(first) {
            self.kind.pop_front()?;
            self.marks.pop_front();
        }
        Ok(())
    }

    // Whether the first mark isn't above a tick.
    #[inline]
    fn has_mark_within(&self, tick: i64) -> bool
        ensures { IsTrue result ↔ ((mark : ℤ) × (slice_get self.now.marks.items 0 ≡ Some mark) × (mark ≤ℤ tick)) }
    {
        match self.first_mark() {
            Some(mark) => mark <= tick,
            None => false,
        }
    }

    // The first mark, or none if there is none.
    #[inline]
    fn first_mark(&self) -> Option<i64>
        ensures { result ≡ slice_get self.now.marks.items 0 }
    {
        self.marks.front().copied()
    }

    // Takes the cells in that the ticks after those of the window meet, up to a last one. The next mark is kept beside the window
    // meanwhile, and stored once, so that a cell that comes in takes fewer steps.
    fn extend<B: Buffer>(
        &mut self,
        source: &Source<'_, '_, B>,
        last: i64,
        registers: &mut Vec<Cell>,
    ) -> Result<(), OutOfMemory>
        requires map { MayMap source.now.each.now.maps source.now.map }
        requires some { self.old.back.tick ≤ℤ last }
        requires kept { B.forgotten source.now.buffer.now ≤ ended_below self.old.back.tick (B.list source.now.buffer.now) }
        requires knows { Knows (B.list source.now.buffer.now) self.old }
        requires held { (first : ℤ) × (first ≤ℤ self.old.back.tick) × (last ≤ℤ (first +ℤ pos 2 *ℤ OFFSET))
            × Holds (B.list source.now.buffer.now) (mapped source.now.each.now.maps source.now.map) first self.old }
        ensures moved { OnOk result (MovesTo (B.list source.now.buffer.now) last self.old self.new) }
        ensures held { OnOk result ((first : ℤ) → first ≤ℤ self.old.back.tick
            → Holds (B.list source.now.buffer.now) (mapped source.now.each.now.maps source.now.map) first self.old
            → Holds (B.list source.now.buffer.now) (mapped source.now.each.now.maps source.now.map) first self.new) }
    {
        let mut next = self.next_behind();
        while let Some(mark) = up_to(next, last) {
            let seen = self.back.look(source.buffer, mark);
            next = seen.next;
            self.push_marked(source, mark, seen.cell, registers)?;
        }
        self.back.stay_until(last);
        self.next = NextMark::Known(next);
        Ok(())
    }

    // Moves the cursor to a tick, and adds the cell there: the first cell of a window.
    fn push_at<B: Buffer>(
        &mut self,
        source: &Source<'_, '_, B>,
        tick: i64,
        registers: &mut Vec<Cell>,
    ) -> Result<(), OutOfMemory>
        requires map { MayMap source.now.each.now.maps source.now.map }
        requires few { length (kind_cells self.old.kind) < 4611686018427387904 }
        requires cursor { MayMove (B.list source.now.buffer.now) tick self.old.back }
        requires kept { B.forgotten source.now.buffer.now ≤ ended_below tick (B.list source.now.buffer.now) }
        ensures moved { OnOk result (MovesTo (B.list source.now.buffer.now) tick self.old self.new) }
        ensures cells { OnOk result (kind_cells self.new.kind ≡ kind_cells self.old.kind
            ++ mapped source.now.each.now.maps source.now.map (cell_at (B.list source.now.buffer.now) tick) ∷ []) }
        ensures marks { self.new.marks ≡ self.old.marks }
    {
        let seen = self.back.look(source.buffer, tick);
        self.next = NextMark::Known(seen.next);
        push_mapped(&mut self.kind, source, seen.cell, registers)
    }

    // Adds a mark, and the cell there. It is inlined, since a window does it for each cell that comes in.
    #[inline(always)]
    fn push_marked<B: Buffer>(
        &mut self,
        source: &Source<'_, '_, B>,
        mark: i64,
        cell: Cell,
        registers: &mut Vec<Cell>,
    ) -> Result<(), OutOfMemory>
        requires map { MayMap source.now.each.now.maps source.now.map }
        requires few { length (kind_cells self.old.kind) < 4611686018427387904 }
        ensures cells { OnOk result (kind_cells self.new.kind ≡ kind_cells self.old.kind
            ++ mapped source.now.each.now.maps source.now.map cell ∷ []) }
        ensures marks { OnOk result (self.new.marks.items ≡ self.old.marks.items ++ mark ∷ []) }
        ensures back { self.new.back ≡ self.old.back }
        ensures reducer { OnOk result (kind_reducer self.new.kind ≡ kind_reducer self.old.kind) }
    {
        push_mapped(&mut self.kind, source, cell, registers)?;
        self.marks.push_back(mark)?;
        Ok(())
    }

    // What the reducer gives on the cells that aren't null.
    #[inline]
    pub(crate) fn result(&self) -> Cell
        ensures { result ≡ reduce (kind_reducer self.now.kind) (numbers (kind_cells self.now.kind)) }
    {
        self.kind.result()
    }

    // The next mark above the last tick, if it is known.
    #[inline]
    pub(crate) fn next_behind(&self) -> Option<i64>
        ensures { result ≡ known_next self.now.next }
    {
        match self.next {
            NextMark::Known(next) => next,
            NextMark::Unknown => None,
        }
    }

    // The next mark above the first tick: the first one in the window, and else the next above the last tick.
    #[inline]
    pub(crate) fn next_within(&self) -> Option<i64>
        ensures next { (list : List Snapshot) (by_map : Option ℤ → Option ℤ) (first : ℤ) → first ≤ℤ self.now.back.tick
            → Holds list by_map first self.now → Knows list self.now
            → NamesNextMark (stream_of list) first result }
        ensures bounds { (list : List Snapshot) (by_map : Option ℤ → Option ℤ) (first : ℤ) → first ≤ℤ self.now.back.tick
            → Holds list by_map first self.now → Knows list self.now
            → IfSome result (λ next. (first <ℤ next) × (next ≤ℤ int_max self.now.back.tick (WIDE +ℤ pos 1))) }
    {
        match self.first_mark() {
            Some(mark) => Some(mark),
            None => self.next_behind(),
        }
    }
}

// The next mark above some tick, if it isn't above a later one.
#[inline(always)]
fn up_to(next: Option<i64>, last: i64) -> Option<i64>
    ensures { (list : List Snapshot) (tick : ℤ) → NamesNextMark (stream_of list) tick next → MatchOption result
        ((other : ℤ) → tick <ℤ other → other ≤ℤ last → (stream_of list).mark other ≡ false)
        (λ mark. IsNextMark (stream_of list) tick mark × (mark ≤ℤ last)) }
{
    let next = next?;
    if next <= last { Some(next) } else { None }
}

// Adds what the map gives on a cell.
#[inline(always)]
fn push_mapped<B: Buffer>(
    kind: &mut Kind,
    source: &Source<'_, '_, B>,
    cell: Cell,
    registers: &mut Vec<Cell>,
) -> Result<(), OutOfMemory>
    requires map { MayMap source.now.each.now.maps source.now.map }
    requires few { length (kind_cells kind.old) < 4611686018427387904 }
    ensures cells { OnOk result (kind_cells kind.new ≡ kind_cells kind.old ++ mapped source.now.each.now.maps source.now.map cell ∷ []) }
    ensures reducer { kind_reducer kind.new ≡ kind_reducer kind.old }
{
    let given = mapped(source.each, source.map, cell, registers)?;
    kind.push_back(given)
}
