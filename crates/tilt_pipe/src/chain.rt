// The loops of a pipe, and their turns.
ghost use Rattle.std.specs.Prelude.{◌≡◌, ◌≢◌, ◌⊎◌, ◌<◌, ◌+◌, ◌++◌, ◌∷◌, [], ℕ, pos, ◌+ℤ◌};
ghost use Rattle.std.specs.Prelude.{length, slice_get, slice_set, Some, None, true, false, IfOk, IsSome, OnOk};
ghost use Rattle.std.specs.Prelude.{MatchOption};
ghost use Rattle.std.specs.List.{AllByRecursion, Contains};
ghost use Rattle.tilt_code.specs.References.{IsCode};
ghost use Rattle.tilt_code.specs.Run.{buffers_of};
ghost use Rattle.tilt_pipe.specs.Chain.{AreLeft, AreTold, HasPoints, HasTurns, IsBehind, IsChain, IsHolder};
ghost use Rattle.tilt_pipe.specs.Chain.{IsLate, IsNearSource, IsReached, IsSettled, LetsGo, MayLetGo, MayTurn, Settles, held_in, point_at};
ghost use Rattle.tilt_pipe.specs.Made.{Work};
ghost use Rattle.tilt_pipe.specs.Positions.{AreRings, IsOpen, made_at};
ghost use Rattle.tilt_pipe.specs.Positions.{start_at, starts_of, works_in};
ghost use Rattle.tilt_pipe.specs.Reads.{turn_point};
ghost use Rattle.tilt_pipe.specs.Trimmed.{HasLetGo, HasNextEnd, IsNotLater, IsReader, StandAlike, held_at, reads_next, wanted_at};
ghost use Rattle.tilt_turn.specs.Held.{IsFit};
ghost use Rattle.tilt_turn.specs.Ready.{IsBodyTick};
ghost use Rattle.tilt_pipe.specs.declared.chain.LoopTurns.{LoopTurns};
ghost use Rattle.tilt_pipe.specs.declared.chain.Reader.{Reader};
ghost use Rattle.tilt_pipe.specs.declared.sources.Source.{Source};

use crate::rings::Rings;
use crate::sources::Source;
use std::alloc::AllocError as OutOfMemory;
use tilt_stream::Snap;
use tilt_turn::LoopState;

// A later loop that reads a buffer: its number among the loops, and the first tick that it reads there, seen from its grid point.
#[derive(Clone, Copy)]
pub(crate) struct Reader {
    pub(crate) place: usize,
    pub(crate) first: i64,
}

// What is kept for the turns of a loop: its state, the loops that it reads, and the loops that are used and read its buffer. It also keeps
// how many of the loops that it reads, from the first one on, are known to have made all that its next turn reads.
#[derive(Drop)]
pub(crate) struct LoopTurns {
    pub(crate) state: LoopState,
    pub(crate) sources: Vec<Source>,
    pub(crate) readers: Vec<Reader>,
    pub(crate) passed: usize,
}

// The rings of a code, and what is kept for the turns of each loop. For each loop that is at work, which means used and not at the end of
// its stretch, the grid point of its next turn. And who holds its ring: a reader whose next turn reads the first snapshot there, if one is
// known. As long as it does, nothing goes. For each loop, the places of the rings that it holds are in a list, which is read after its
// turn. There may also be some that it held before.
#[derive(Drop)]
pub(crate) struct Chain {
    pub(crate) rings: Rings,
    pub(crate) turns: Vec<LoopTurns>,
    pub(crate) points: Vec<Option<i64>>,
    pub(crate) holders: Vec<Option<Reader>>,
    pub(crate) held: Vec<Vec<usize>>,
}

impl Chain {
    // A loop that has made less than the next turn of a loop reads. `None` if all that this turn reads is made. The sources before the loop
    // that was found last have made enough already, so that the search goes on from that one: each is passed once for a turn.
    #[inline(always)]
    pub(crate) fn behind(&mut self, place: usize) -> Option<usize>
        requires open { (w : Work) × IsOpen self.old.rings place w × (w.used ≡ true) }
        requires is { IsChain self.old }
        ensures behind { (w : Work) → IsOpen self.old.rings place w
            → MatchOption result (AreTold self.old.rings place w) (λ source. IsBehind self.old.rings place w source) }
        ensures is { IsChain self.new }
        ensures rings { self.new.rings ≡ self.old.rings }
    {
        // What rings keep is known from here on.
        let _ = self.rings.loops();
        let point = self.point(place);
        let turns = &self.turns[place];
        let Some(number) = short_source(&self.rings, &turns.sources, point, turns.passed) else {
            return None;
        };
        let source = turns.sources[number].place;
        self.turns[place].passed = number;
        Some(source)
    }

    // Makes the next turn of a loop, and lets go what no next turn reads any more.
    #[inline(always)]
    pub(crate) fn make(&mut self, place: usize) -> Result<Snap, OutOfMemory>
        requires is { IsChain self.old }
        requires told { (w : Work) × IsOpen self.old.rings place w × (w.used ≡ true) × AreTold self.old.rings place w }
        ensures is { OnOk result (IsChain self.new) }
        ensures snap { (w : Work) → IsOpen self.old.rings place w
            → IfOk result (λ snap. slice_get w.whole (length (made_at self.old.rings place w)) ≡ Some snap) }
        ensures starts { IfOk result (λ snap. starts_of self.new.rings.rings ≡ slice_set (starts_of self.old.rings.rings) place snap.end) }
        ensures code { self.new.rings.code ≡ self.old.rings.code }
        ensures inputs { self.new.rings.inputs ≡ self.old.rings.inputs }
    {
        // What rings keep is known from here on.
        let _ = self.rings.loops();
        let read = self.is_read(place);
        let had = self.rings.holds(place);
        let snap = next_snap(&mut self.turns[place], &self.rings, place)?;
        self.rings.keep(place, snap, read)?;
        self.set_point(place);
        self.trim_own(place, had, snap.end)?;
        self.trim_held(place)?;
        Ok(snap)
    }

    // Whether a later loop reads a loop's buffer.
    #[inline]
    fn is_read(&self, place: usize) -> bool
        requires turns { HasTurns self.now }
        requires there { place < length self.now.rings.rings }
        ensures { result ≡ false → wanted_at self.now.rings place ≡ None }
    {
        // What rings keep is known from here on.
        let _ = self.rings.loops();
        !self.turns[place].readers.is_empty()
    }

    // The first of a ring's readers whose next turn reads at a tick or below it.
    fn reader_up_to(&self, place: usize, end: i64) -> Option<Reader>
        requires may { MayLetGo self.now }
        requires there { place < length self.now.rings.rings }
        requires end { HasLetGo self.now.rings place (Some end) }
        ensures { MatchOption result (IsNotLater (Some (end +ℤ pos 1)) (wanted_at self.now.rings place)) (IsHolder self.now place) }
    {
        // What rings keep is known from here on.
        let _ = self.rings.loops();
        let readers = &self.turns[place].readers;
        for number in 0..readers.len() {
            let reader = readers[number];
            if self.reads_up_to(reader, end) {
                return Some(reader);
            }
        }
        None
    }

    // The grid point of the next turn of a loop that is at work.
    #[inline]
    fn point(&self, place: usize) -> i64
        requires points { HasPoints self.now }
        requires at_work { (w : Work) × IsOpen self.now.rings place w × (w.used ≡ true) }
        ensures { (w : Work) → IsOpen self.now.rings place w → result ≡ turn_point w.loop (start_at self.now.rings place) }
    {
        self.points[place].unwrap()
    }

    // Sets the grid point of the next turn of a loop that is used.
    #[inline(always)]
    fn set_point(&mut self, place: usize)
        requires there { place < length self.old.rings.rings }
        requires kept { place < length self.old.points.items }
        ensures points { (w : Work) → slice_get (works_in self.old.rings) place ≡ Some w → w.used ≡ true
            → self.new.points.items ≡ slice_set self.old.points.items place (point_at self.old.rings place w) }
        ensures rings { self.new.rings ≡ self.old.rings }
        ensures turns { self.new.turns.items ≡ self.old.turns.items }
        ensures holders { self.new.holders.items ≡ self.old.holders.items }
        ensures held { self.new.held.items ≡ self.old.held.items }
    {
        let point = next_point(&self.rings, place, true);
        self.points[place] = point;
    }

    // The tick that a reader's next turn reads first; none if it isn't at work.
    #[inline]
    fn next_read(&self, reader: Reader) -> Option<i64>
        requires points { HasPoints self.now }
        requires reader { IsReader self.now.rings reader }
        ensures { result ≡ reads_next self.now.rings reader }
    {
        // What rings keep is known from here on.
        let _ = self.rings.loops();
        match self.points[reader.place] {
            Some(point) => Some(point + reader.first),
            None => None,
        }
    }

    // Whether a reader's next turn reads at a tick or below it.
    #[inline]
    fn reads_up_to(&self, reader: Reader, end: i64) -> bool
        requires points { HasPoints self.now }
        requires reader { IsReader self.now.rings reader }
        ensures early { result ≡ true → IsNotLater (reads_next self.now.rings reader) (Some end) }
        ensures late { result ≡ false → IsNotLater (Some (end +ℤ pos 1)) (reads_next self.now.rings reader) }
    {
        match self.next_read(reader) {
            Some(tick) => tick <= end,
            None => false,
        }
    }

    // Whether the holder of a ring reads the first snapshot there, which ends at a tick.
    #[inline]
    fn is_held(&self, place: usize, end: i64) -> bool
        requires may { MayLetGo self.now }
        requires there { place < length self.now.rings.rings }
        requires end { HasLetGo self.now.rings place (Some end) }
        ensures { result ≡ true → IsSettled self.now place }
    {
        // What rings keep is known from here on.
        let _ = self.rings.loops();
        match self.holders[place] {
            Some(reader) => self.reads_up_to(reader, end),
            None => false,
        }
    }

    // Where the first snapshot of a ring ends, unless the holder of the ring reads it.
    #[inline(always)]
    fn unheld_end(&self, place: usize) -> Option<i64>
        requires may { MayLetGo self.now }
        requires there { place < length self.now.rings.rings }
        ensures { MatchOption result (IsSettled self.now place) (λ end. HasNextEnd self.now.rings place (Some end)) }
    {
        let end = self.rings.first_end(place)?;
        if self.is_held(place, end) {
            None
        } else {
            Some(end)
        }
    }

    // Whether the loop at a place holds a ring.
    #[inline]
    fn holds(&self, place: usize, ring: usize) -> bool
        requires { ring < length self.now.holders.items }
        ensures { result ≡ false → (reader : Reader) → slice_get self.now.holders.items ring ≡ Some (Some reader) → reader.place ≢ place }
    {
        match self.holders[ring] {
            Some(reader) => reader.place == place,
            None => false,
        }
    }

    // Lets go what no next turn reads any more of the buffer of a loop whose turn was made. If its ring held a snapshot before, that one is
    // still read, so that nothing goes. Otherwise the ring holds the new one alone, which ends at a tick, if it is read.
    #[inline(always)]
    fn trim_own(&mut self, place: usize, had: bool, end: i64) -> Result<(), OutOfMemory>
        requires may { MayLetGo self.old }
        requires there { place < length self.old.rings.rings }
        requires had { had ≡ true → IsSettled self.old place }
        requires end { had ≡ false → HasLetGo self.old.rings place (Some end) }
        ensures alike { StandAlike self.old.rings self.new.rings }
        ensures settles { OnOk result (Settles self.old self.new place) }
    {
        // What rings keep is known from here on.
        let _ = self.rings.loops();
        if had || self.is_held(place, end) {
            return Ok(());
        }
        self.trim(place)
    }

    // Lets go what no next turn reads any more of a loop's buffer. Mostly the loop that held its ring still does so, and nothing goes.
    #[inline(always)]
    fn trim(&mut self, place: usize) -> Result<(), OutOfMemory>
        requires may { MayLetGo self.old }
        requires there { place < length self.old.rings.rings }
        ensures alike { StandAlike self.old.rings self.new.rings }
        ensures settles { OnOk result (Settles self.old self.new place) }
    {
        // What rings keep is known from here on.
        let _ = self.rings.loops();
        match self.unheld_end(place) {
            Some(end) => self.release(place, end),
            None => Ok(()),
        }
    }

    // Lets go what no reader's next turn reads, one snapshot after the other, of which the first ends at a tick.
    #[inline(never)]
    fn release(&mut self, place: usize, first: i64) -> Result<(), OutOfMemory>
        requires may { MayLetGo self.old }
        requires there { place < length self.old.rings.rings }
        requires end { HasNextEnd self.old.rings place (Some first) }
        ensures alike { StandAlike self.old.rings self.new.rings }
        ensures settles { OnOk result (Settles self.old self.new place) }
    {
        // What rings keep is known from here on.
        let _ = self.rings.loops();
        let mut end = first;
        while let Some(next) = self.drops_first(place, end)? {
            end = next;
        }
        Ok(())
    }

    // Lets the first snapshot of a ring go, which ends at a tick, if no reader's next turn reads it. It returns where the next one ends, if
    // that one must be checked. A reader whose next turn reads the first one holds the ring from then on.
    fn drops_first(&mut self, place: usize, end: i64) -> Result<Option<i64>, OutOfMemory>
        requires may { MayLetGo self.old }
        requires there { place < length self.old.rings.rings }
        requires end { HasNextEnd self.old.rings place (Some end) }
        ensures alike { StandAlike self.old.rings self.new.rings }
        ensures lets { OnOk result (LetsGo self.old self.new place) }
        ensures settled { IfOk result
            (λ next. MatchOption next (IsSettled self.new place) (λ end. HasNextEnd self.new.rings place (Some end))) }
        ensures fewer { IfOk result (λ next. IsSome next → held_at self.new.rings place < held_at self.old.rings place) }
    {
        // What rings keep is known from here on.
        let _ = self.rings.loops();
        if let Some(reader) = self.reader_up_to(place, end) {
            self.set_holder(place, reader)?;
            return Ok(None);
        }
        self.rings.let_first_go(place);
        Ok(self.unheld_end(place))
    }

    // Says that a reader holds a ring, which is then in the list of its loop. `release` seldom calls it, and is shorter with the call.
    #[inline(never)]
    fn set_holder(&mut self, place: usize, reader: Reader) -> Result<(), OutOfMemory>
        requires may { MayLetGo self.old }
        requires there { place < length self.old.rings.rings }
        requires holder { IsHolder self.old place reader }
        ensures alike { StandAlike self.old.rings self.new.rings }
        ensures settles { OnOk result (Settles self.old self.new place) }
    {
        // What rings keep is known from here on.
        let _ = self.rings.loops();
        add_ring(&mut self.held[reader.place], place)?;
        self.holders[place] = Some(reader);
        Ok(())
    }

    // Lets go what no next turn reads any more of the buffers whose rings a loop holds, after its turn. The list is read from its end: a
    // ring that is taken off is replaced by one that was checked already, or by one that was added.
    #[inline(always)]
    fn trim_held(&mut self, place: usize) -> Result<(), OutOfMemory>
        requires { AreLeft self.old place (length (held_in self.old.held.items place)) }
        ensures is { OnOk result (IsChain self.new) }
        ensures alike { StandAlike self.old.rings self.new.rings }
    {
        // What rings keep is known from here on.
        let _ = self.rings.loops();
        for number in (0..self.held[place].len()).rev() {
            self.trim_number(place, number)?;
        }
        Ok(())
    }

    // The same of one of them, which the loop then holds still, or it isn't in the list.
    #[inline(always)]
    fn trim_number(&mut self, place: usize, number: usize) -> Result<(), OutOfMemory>
        requires { AreLeft self.old place (number + 1) }
        ensures left { OnOk result (AreLeft self.new place number) }
        ensures alike { StandAlike self.old.rings self.new.rings }
    {
        let ring = self.held[place][number];
        self.trim(ring)?;
        if !self.holds(place, ring) {
            self.held[place].swap_remove(number);
        }
        Ok(())
    }
}

// Adds a ring to a list, if it isn't in it.
fn add_ring(rings: &mut Vec<usize>, ring: usize) -> Result<(), OutOfMemory>
    ensures among { OnOk result (Contains rings.new.items ring) }
    ensures added { (rings.new.items ≡ rings.old.items) ⊎ (rings.new.items ≡ rings.old.items ++ ring ∷ []) }
{
    if !rings.contains(&ring) {
        rings.push(ring)?;
    }
    Ok(())
}

// The grid point of the next turn of a loop; none if it isn't at work: not used, or at the end of its stretch.
#[inline(always)]
pub(crate) fn next_point(rings: &Rings, place: usize, used: bool) -> Option<i64>
    requires { place < length rings.now.rings }
    ensures { (w : Work) → slice_get (works_in rings.now) place ≡ Some w → w.used ≡ used → result ≡ point_at rings.now place w }
{
    // What rings keep is known from here on.
    let _ = rings.loops();
    if used && rings.is_open(place) {
        Some(rings.point(place))
    } else {
        None
    }
}

// The first source that has made less than is read at a grid point, and not all. Those below a number are known to have made enough.
fn short_source(rings: &Rings, sources: &[Source], point: i64, from: usize) -> Option<usize>
    requires near { AllByRecursion (IsNearSource (length rings.now.rings)) sources.now }
    requires rings { AreRings rings.now }
    requires point { IsBodyTick point }
    requires passed { (k : ℕ) (s : Source) → k < from → slice_get sources.now k ≡ Some s → IsReached rings.now s.place (point +ℤ s.last) }
    ensures passed { (number : ℕ) → result ≡ Some number
        → (k : ℕ) (s : Source) → k < number → slice_get sources.now k ≡ Some s → IsReached rings.now s.place (point +ℤ s.last) }
    ensures found { MatchOption result
        ((k : ℕ) (s : Source) → slice_get sources.now k ≡ Some s → IsReached rings.now s.place (point +ℤ s.last))
        (λ number. (s : Source) × (slice_get sources.now number ≡ Some s) × IsLate rings.now s.place (point +ℤ s.last)) }
{
    for number in from..sources.len() {
        if is_short(rings, sources[number], point) {
            return Some(number);
        }
    }
    None
}

// Whether a source has made less than is read at a grid point, and not all.
#[inline]
fn is_short(rings: &Rings, source: Source, point: i64) -> bool
    requires near { IsNearSource (length rings.now.rings) source }
    requires rings { AreRings rings.now }
    requires point { IsBodyTick point }
    ensures late { result ≡ true → IsLate rings.now source.place (point +ℤ source.last) }
    ensures reached { result ≡ false → IsReached rings.now source.place (point +ℤ source.last) }
{
    rings.start(source.place) < point + source.last && rings.is_open(source.place)
}

// The snapshot of a loop's next turn. Its state is then fit for the turn after that, of which nothing is known yet to be made.
#[inline(always)]
fn next_snap(turns: &mut LoopTurns, rings: &Rings, place: usize) -> Result<Snap, OutOfMemory>
    requires { (w : Work) × MayTurn rings.now place turns.old w }
    ensures snap { (w : Work) → IsOpen rings.now place w
        → IfOk result (λ snap. slice_get w.whole (length (made_at rings.now place w)) ≡ Some snap) }
    ensures fit { (w : Work) → IsOpen rings.now place w
        → OnOk result (IsFit (buffers_of rings.now.code rings.now.inputs) w.loop
        (turn_point w.loop (start_at rings.now place)) turns.new.state) }
    ensures sources { turns.new.sources.items ≡ turns.old.sources.items }
    ensures readers { turns.new.readers.items ≡ turns.old.readers.items }
    ensures passed { turns.new.passed ≡ 0 }
    ensures code { IsCode rings.now.code }
    ensures rings { AreRings rings.now }
{
    let each = &rings.loops()[place];
    let start = rings.start(place);
    turns.passed = 0;
    turns.state.turn(rings, each, start)
}
