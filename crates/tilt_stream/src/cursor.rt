// Reading a buffer onwards.
ghost use Rattle.std.specs.Prelude.{◌≡◌, ◌<◌, ◌≤◌, neg_ℤ, pos, ◌+ℤ◌, ◌<ℤ◌, ◌≤ℤ◌, IfSome, IsTrue, ◌↔◌, MatchOption, length, slice_get};
ghost use Rattle.tilt_base.specs.declared.limits.TheConstants.{WIDE};
ghost use Rattle.tilt_stream.specs.Marks.{NamesNextMark};
ghost use Rattle.tilt_stream.specs.Snap.{InOrder, ended_below};
ghost use Rattle.tilt_stream.specs.Stream.{cell_at, stream_of};

use crate::buffer::Buffer;
use crate::seen::Seen;
use crate::snap::Snap;
use tilt_base::Cell;

/// A place in a buffer, which moves on with time. It is at a tick: the place is the place of the first snapshot that doesn't
/// end below the tick. It also fits a buffer that made more snapshots since: then it must move before it reads.
#[derive(Clone, Copy, Debug)]
pub struct Cursor {
    tick: i64,
    place: usize,
}

impl Cursor {
    /// A cursor before all snapshots, at a tick below all of theirs. It is fit for any buffer.
    pub fn new() -> Cursor
        ensures { result ≡ record { tick = neg_ℤ (pos 9223372036854775808); place = 0 } }
    {
        Cursor {
            tick: i64::MIN,
            place: 0,
        }
    }

    /// The tick at which it is.
    #[inline]
    pub fn tick(&self) -> i64
        ensures { result ≡ self.now.tick }
    {
        self.tick
    }

    /// Moves to a tick that isn't below its own, if the buffer keeps the snapshots from that tick on. The snapshots that it passes
    /// needn't be kept any more. It takes the logarithm of the number of snapshots that it passes, and reads one if it passes none.
    pub fn move_to<B: Buffer>(&mut self, buffer: &B, tick: i64)
        requires fits { self.old.place ≤ ended_below self.old.tick (B.list buffer.now) }
        requires kept { B.forgotten buffer.now ≤ ended_below tick (B.list buffer.now) }
        requires onwards { self.old.tick ≤ℤ tick }
        ensures { self.new ≡ record { tick = tick; place = ended_below tick (B.list buffer.now) } }
    {
        let from = self.place.max(buffer.first_kept());
        self.place = passing(buffer, from, tick);
        self.tick = tick;
    }

    /// Moves to a tick as `move_to` does, and gives the cell and the next mark there, as `value` and `next` do. Where it passes no
    /// snapshot or one, it reads none twice.
    #[inline(always)]
    pub fn look<B: Buffer>(&mut self, buffer: &B, tick: i64) -> Seen
        requires fits { self.old.place ≤ ended_below self.old.tick (B.list buffer.now) }
        requires kept { B.forgotten buffer.now ≤ ended_below tick (B.list buffer.now) }
        requires onwards { self.old.tick ≤ℤ tick }
        ensures moved { self.new ≡ record { tick = tick; place = ended_below tick (B.list buffer.now) } }
        ensures cell { result.cell ≡ cell_at (B.list buffer.now) tick }
        ensures next { NamesNextMark (stream_of (B.list buffer.now)) tick result.next }
        ensures low { IfSome result.next (λ next. neg_ℤ WIDE <ℤ next) }
        ensures high { IfSome result.next (λ next. next ≤ℤ (WIDE +ℤ pos 1)) }
    {
        let from = self.place.max(buffer.first_kept());
        if let Some(seen) = seen_at(buffer, from, tick) {
            self.stand(tick, from);
            return seen;
        }
        let second = from.saturating_add(1);
        if let Some(seen) = seen_at(buffer, second, tick) {
            self.stand(tick, second);
            return seen;
        }
        let place = passing(buffer, second, tick);
        self.stand(tick, place);
        self.seen(buffer)
    }

    // Is at a tick, and at the place of the first snapshot that doesn't end below it.
    #[inline]
    fn stand(&mut self, tick: i64, place: usize)
        ensures { self.new ≡ record { tick = tick; place = place } }
    {
        self.tick = tick;
        self.place = place;
    }

    /// Moves to a later tick, if it is known that no snapshot ends from its own tick on and below that one: it reads nothing.
    #[inline]
    pub fn stay_until(&mut self, tick: i64)
        ensures { self.new ≡ record { tick = tick; place = self.old.place } }
    {
        self.tick = tick;
    }

    /// The cell of the buffer's stream at the cursor's tick.
    #[inline]
    pub fn value<B: Buffer>(&self, buffer: &B) -> Cell
        requires stands { self.now.place ≡ ended_below self.now.tick (B.list buffer.now) }
        requires kept { B.forgotten buffer.now ≤ self.now.place }
        ensures { result ≡ cell_at (B.list buffer.now) self.now.tick }
    {
        self.seen(buffer).cell
    }

    /// The smallest tick above the cursor's at which the buffer's stream has a mark: where a snapshot begins, or one has ended.
    /// `None` exactly if no such tick has a mark.
    #[inline]
    pub fn next<B: Buffer>(&self, buffer: &B) -> Option<i64>
        requires stands { self.now.place ≡ ended_below self.now.tick (B.list buffer.now) }
        requires kept { B.forgotten buffer.now ≤ self.now.place }
        ensures next { NamesNextMark (stream_of (B.list buffer.now)) self.now.tick result }
        ensures low { IfSome result (λ next. neg_ℤ WIDE <ℤ next) }
        ensures high { IfSome result (λ next. next ≤ℤ (WIDE +ℤ pos 1)) }
    {
        self.seen(buffer).next
    }

    // The cell at the cursor's tick, and the next mark above it, by one read of the buffer.
    #[inline]
    fn seen<B: Buffer>(&self, buffer: &B) -> Seen
        requires stands { self.now.place ≡ ended_below self.now.tick (B.list buffer.now) }
        requires kept { B.forgotten buffer.now ≤ self.now.place }
        ensures cell { result.cell ≡ cell_at (B.list buffer.now) self.now.tick }
        ensures next { NamesNextMark (stream_of (B.list buffer.now)) self.now.tick result.next }
        ensures low { IfSome result.next (λ next. neg_ℤ WIDE <ℤ next) }
        ensures high { IfSome result.next (λ next. next ≤ℤ (WIDE +ℤ pos 1)) }
    {
        seen_at(buffer, self.place, self.tick).unwrap()
    }
}

// What is seen at a tick, if no snapshot from a place on ends below it: by the one at that place, or if there is none.
#[inline]
fn seen_at<B: Buffer>(buffer: &B, place: usize, tick: i64) -> Option<Seen>
    requires fits { place ≤ ended_below tick (B.list buffer.now) }
    requires kept { B.forgotten buffer.now ≤ place }
    ensures stands { MatchOption result (place < ended_below tick (B.list buffer.now))
        (λ _. place ≡ ended_below tick (B.list buffer.now)) }
    ensures cell { IfSome result (λ seen. seen.cell ≡ cell_at (B.list buffer.now) tick) }
    ensures next { IfSome result (λ seen. NamesNextMark (stream_of (B.list buffer.now)) tick seen.next) }
    ensures low { IfSome result (λ seen. IfSome seen.next (λ next. neg_ℤ WIDE <ℤ next)) }
    ensures high { IfSome result (λ seen. IfSome seen.next (λ next. next ≤ℤ (WIDE +ℤ pos 1))) }
{
    let Some(snap) = snap_at(buffer, place) else {
        return Some(Seen {
            cell: None,
            next: None,
        });
    };
    if snap.end < tick {
        return None;
    }
    if snap.start < tick {
        Some(Seen {
            cell: snap.value,
            next: Some(snap.end + 1),
        })
    } else {
        Some(Seen {
            cell: None,
            next: Some(snap.start + 1),
        })
    }
}

// The place of the first snapshot from a place on that doesn't end below a tick: by steps that grow, and then by halves. It isn't inlined,
// so that `look`, which mostly needs none of it, is.
#[inline(never)]
fn passing<B: Buffer>(buffer: &B, from: usize, tick: i64) -> usize
    requires fits { from ≤ ended_below tick (B.list buffer.now) }
    requires kept { B.forgotten buffer.now ≤ from }
    ensures { result ≡ ended_below tick (B.list buffer.now) }
{
    let (low, high) = reach(buffer, from, tick);
    parted(buffer, low, high, tick)
}

// The snapshot at a place, or none if no more were made.
#[inline]
fn snap_at<B: Buffer>(buffer: &B, place: usize) -> Option<Snap>
    requires kept { B.forgotten buffer.now ≤ place }
    ensures snap { result ≡ slice_get (B.list buffer.now) place }
    ensures low { IfSome result (λ snap. neg_ℤ WIDE ≤ℤ snap.start) }
    ensures high { IfSome result (λ snap. snap.end ≤ℤ WIDE) }
    ensures in_order { InOrder (neg_ℤ WIDE) WIDE (B.list buffer.now) }
{
    buffer.at(place)
}

// Whether the snapshot at a place ends below a tick.
#[inline]
fn is_passed<B: Buffer>(buffer: &B, place: usize, tick: i64) -> bool
    requires made { place < length (B.list buffer.now) }
    requires kept { B.forgotten buffer.now ≤ place }
    ensures { IsTrue result ↔ (place < ended_below tick (B.list buffer.now)) }
{
    match buffer.at(place) {
        Some(snap) => snap.end < tick,
        None => false,
    }
}

// Two places: the first snapshot that doesn't end below a tick is between them, or at one of them. The steps are 1, 1, 2, 4
// and so on, so that a cursor which passes one snapshot reads two.
fn reach<B: Buffer>(buffer: &B, from: usize, tick: i64) -> (usize, usize)
    requires fits { from ≤ ended_below tick (B.list buffer.now) }
    requires kept { B.forgotten buffer.now ≤ from }
    ensures low { result.0 ≤ ended_below tick (B.list buffer.now) }
    ensures high { ended_below tick (B.list buffer.now) ≤ result.1 }
    ensures kept { B.forgotten buffer.now ≤ result.0 }
    ensures made { result.1 ≤ length (B.list buffer.now) }
{
    let made = buffer.made();
    let mut low = from;
    let mut step = 1;
    while step <= made - low {
        if !is_passed(buffer, low + (step - 1), tick) {
            return (low, low + (step - 1));
        }
        low += step;
        step = low - from;
    }
    (low, made)
}

// The place between two at which the first snapshot lies that doesn't end below a tick: by halves.
fn parted<B: Buffer>(buffer: &B, from: usize, to: usize, tick: i64) -> usize
    requires low { from ≤ ended_below tick (B.list buffer.now) }
    requires high { ended_below tick (B.list buffer.now) ≤ to }
    requires kept { B.forgotten buffer.now ≤ from }
    requires made { to ≤ length (B.list buffer.now) }
    ensures { result ≡ ended_below tick (B.list buffer.now) }
{
    let mut low = from;
    let mut high = to;
    while low < high {
        let middle = low + (high - low) / 2;
        if is_passed(buffer, middle, tick) {
            low = middle + 1;
        } else {
            high = middle;
        }
    }
    low
}
