// The buffers that the loops of a pipe read: the rows of the inputs, and a ring for each loop.
ghost use Rattle.std.specs.Prelude.{◌≡◌, ◌<◌, ◌≤◌, ◌+◌, neg_ℤ, ◌<ℤ◌, [], get_or};
ghost use Rattle.std.specs.Prelude.{length, map, slice_get, Some, false, IfOk, OnOk, OnErr, IsTrue, ◌↔◌, MatchOption};
ghost use Rattle.tilt_code.specs.References.{IsCode};
ghost use Rattle.tilt_base.specs.declared.limits.TheConstants.{WIDE};
ghost use Rattle.tilt_pipe.specs.Made.{Work};
ghost use Rattle.tilt_pipe.specs.Positions.{AreRings, IsOpen, RingParts, forgotten_of, kept_ring, later_ring, lists_of};
ghost use Rattle.tilt_pipe.specs.Positions.{made_at, open_lists, start_at, starts_of, with_ring};
ghost use Rattle.tilt_pipe.specs.Positions.{works_in};
ghost use Rattle.tilt_pipe.specs.Reads.{turn_point};
ghost use Rattle.tilt_pipe.specs.Rings.{held};
ghost use Rattle.tilt_pipe.specs.Trimmed.{HasNextEnd};
ghost use Rattle.tilt_stream.specs.Snap.{InOrder};

use crate::input::Input;
use crate::loop_ring::LoopRing;
use std::alloc::{AllocError as OutOfMemory, Global};
use std::marker::Model;
use tilt_code::{Code, Loop};
use tilt_stream::{Buffer, Snap};
use tilt_turn::Buffers;

// A code, the rows of its inputs, and the rings of its loops. The position of a loop says what it has made: the part of its buffer that
// ends there.
#[derive(Drop)]
pub(crate) struct Rings {
    code: Code,
    inputs: Vec<Input>,
    rings: Vec<LoopRing>,
}

impl Model for Rings {
    ghost use Rattle.tilt_pipe.specs.Positions.{RingsParts, AreRings, coded_rings};

    ghost Value = { RingsParts };

    ghost coded = { coded_rings };

    ghost view = { λ r. record { code = r.code; inputs = r.inputs.items; rings = r.rings.items } };

    ghost invariant = { λ r. AreRings (record { code = r.code; inputs = r.inputs.items; rings = r.rings.items }) };
}

impl Buffers for Rings {
    ghost lists = { lists_of };

    ghost forgotten = { forgotten_of };

    #[inline]
    fn made(&self, buffer: usize) -> usize {
        match self.inputs.get(buffer) {
            Some(input) => input.made(),
            None => self.ring_made(buffer - self.inputs.len()),
        }
    }

    #[inline]
    fn first_kept(&self, buffer: usize) -> usize {
        let Some(place) = buffer.checked_sub(self.inputs.len()) else {
            return 0;
        };
        match self.rings.get(place) {
            Some(ring) => ring.forgotten(),
            None => 0,
        }
    }

    #[inline]
    fn at(&self, buffer: usize, place: usize) -> Option<Snap> {
        match self.inputs.get(buffer) {
            Some(input) => Buffer::at(input, place),
            None => self.ring_at(buffer - self.inputs.len(), place),
        }
    }
}

impl Rings {
    // The rings of a code before the first turn: all loops are at the lower ends of their stretches.
    pub(crate) fn new(alloc: Global, code: Code, inputs: Vec<Input>) -> Result<Rings, OutOfMemory>
        requires { length inputs.items ≡ length code.inputs }
        ensures code { IfOk result (λ r. r.code ≡ code) }
        ensures inputs { IfOk result (λ r. r.inputs ≡ inputs.items) }
        ensures rings { IfOk result (λ r. r.rings ≡ map (λ l. record { held = []; forgotten = 0; start = l.lo; hi = l.hi }) code.loops) }
    {
        let mut rings = Vec::new(alloc);
        for each in code.loops() {
            rings.push(LoopRing::new(alloc, each.lo, each.hi)?)?;
        }
        Ok(Rings {
            code,
            inputs,
            rings,
        })
    }

    // The loops of the code.
    #[inline]
    pub(crate) fn loops(&self) -> &[Loop]
        ensures loops { result.now ≡ self.now.code.loops }
        ensures code { IsCode self.now.code }
        ensures rings { AreRings self.now }
    {
        self.code.loops()
    }

    // How many inputs there are.
    pub(crate) fn inputs(&self) -> usize
        ensures { result ≡ length self.now.inputs }
    {
        self.inputs.len()
    }

    // The position of a loop.
    #[inline]
    pub(crate) fn start(&self, place: usize) -> i64
        requires { place < length self.now.rings }
        ensures { result ≡ start_at self.now place }
    {
        self.rings[place].start()
    }

    // Whether a loop is before the end of its stretch.
    #[inline]
    pub(crate) fn is_open(&self, place: usize) -> bool
        requires { place < length self.now.rings }
        ensures { (w : Work) → slice_get (works_in self.now) place ≡ Some w → IsTrue result ↔ (start_at self.now place <ℤ w.loop.hi) }
    {
        // What a code keeps is known from here on.
        let _ = self.code.loops();
        self.rings[place].is_open()
    }

    // The grid point of a loop's next turn.
    #[inline(always)]
    pub(crate) fn point(&self, place: usize) -> i64
        requires { (w : Work) × IsOpen self.now place w }
        ensures { (w : Work) → IsOpen self.now place w → result ≡ turn_point w.loop (start_at self.now place) }
    {
        let each = &self.code.loops()[place];
        each.grid.ceil(self.start(place) + 1)
    }

    // The loop that fills a buffer, if it is none of an input.
    #[inline]
    pub(crate) fn source(&self, buffer: u32) -> Option<usize>
        ensures { MatchOption result (buffer < length self.now.inputs) (λ source. buffer ≡ length self.now.inputs + source) }
    {
        (buffer as usize).checked_sub(self.inputs.len())
    }

    // Adds a snapshot to what a loop has made: the one of its buffer that starts at its position. If no later loop reads it, the ring holds
    // none, and takes none in.
    #[inline(always)]
    pub(crate) fn keep(&mut self, place: usize, snap: Snap, read: bool) -> Result<(), OutOfMemory>
        requires next { (w : Work) × IsOpen self.old place w × (slice_get w.whole (length (made_at self.old place w)) ≡ Some snap) }
        requires none { read ≡ false → (r : RingParts) → slice_get self.old.rings place ≡ Some r → r.held ≡ [] }
        ensures ok { (r : RingParts) → slice_get self.old.rings place ≡ Some r
            → OnOk result (self.new ≡ with_ring self.old place (kept_ring read r snap)) }
        ensures err { OnErr result (self.new ≡ self.old) }
    {
        // What a code keeps is known from here on.
        let _ = self.code.loops();
        self.rings[place].keep(snap, read)?;
        Ok(())
    }

    // Whether a loop's ring holds a snapshot.
    #[inline]
    pub(crate) fn holds(&self, place: usize) -> bool
        requires { place < length self.now.rings }
        ensures { (r : RingParts) → slice_get self.now.rings place ≡ Some r → IsTrue result ↔ (0 < length r.held) }
    {
        self.rings[place].len() > 0
    }

    // Where the first snapshot ends that a loop's ring holds: what ended before is let go.
    #[inline]
    pub(crate) fn first_end(&self, place: usize) -> Option<i64>
        requires { place < length self.now.rings }
        ensures { HasNextEnd self.now place result }
    {
        // What a code keeps is known from here on.
        let _ = self.code.loops();
        self.rings[place].first_end()
    }

    // Lets the first snapshot go that a loop's ring holds.
    #[inline]
    pub(crate) fn let_first_go(&mut self, place: usize)
        requires { (r : RingParts) × (slice_get self.old.rings place ≡ Some r) × (0 < length r.held) }
        ensures { (r : RingParts) → slice_get self.old.rings place ≡ Some r → self.new ≡ with_ring self.old place (later_ring r) }
    {
        // What a code keeps is known from here on.
        let _ = self.code.loops();
        self.rings[place].let_first_go();
    }

    // How many snapshots the rings hold together.
    pub(crate) fn held(&self) -> u128
        ensures { result ≡ held (map (λ r. r.held) self.now.rings) }
    {
        let mut held = 0;
        for ring in &self.rings {
            held += ring.len() as u128;
        }
        held
    }

    // How many snapshots a turn reads of a loop: those that are made, and one more if the loop isn't at the end of its stretch.
    #[inline]
    fn ring_made(&self, place: usize) -> usize
        ensures count { result ≡ length (get_or (open_lists (works_in self.now) (starts_of self.now.rings)) place []) }
        ensures in_order { InOrder (neg_ℤ WIDE) WIDE (get_or (open_lists (works_in self.now) (starts_of self.now.rings)) place []) }
    {
        // What a code keeps is known from here on.
        let _ = self.code.loops();
        match self.rings.get(place) {
            Some(ring) => ring.made(),
            None => 0,
        }
    }

    // The one at a place of these, or none.
    #[inline]
    fn ring_at(&self, place: usize, number: usize) -> Option<Snap>
        requires kept { get_or (map (λ r. r.forgotten) self.now.rings) place 0 ≤ number }
        ensures snap { result ≡ slice_get (get_or (open_lists (works_in self.now) (starts_of self.now.rings)) place []) number }
        ensures in_order { InOrder (neg_ℤ WIDE) WIDE (get_or (open_lists (works_in self.now) (starts_of self.now.rings)) place []) }
    {
        // What a code keeps is known from here on.
        let _ = self.code.loops();
        self.rings.get(place)?.at(number)
    }
}
