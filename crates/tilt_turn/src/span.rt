// A window over a buffer, and what it holds.
ghost use Rattle.std.specs.Prelude.{◌≡◌, ℤ, List, IfOk, IfSome, OnOk, map};
ghost use Rattle.tilt_code.specs.Body.{leaf_of};
ghost use Rattle.tilt_code.specs.Code.{Block};
ghost use Rattle.tilt_stream.specs.Marks.{NamesNextMark};
ghost use Rattle.tilt_stream.specs.Snap.{Snapshot};
ghost use Rattle.tilt_stream.specs.Stream.{stream_of};
ghost use Rattle.tilt_turn.specs.Held.{IsLeafBy, StandsAt, origin};
ghost use Rattle.tilt_turn.specs.Ready.{IsBodyTick, IsMarkTick};
ghost use Rattle.tilt_turn.specs.Stepped.{LooksTo, MayLook};
ghost use Rattle.tilt_turn.specs.declared.leaf.Leaf.TheVariants.{Window};

use crate::buffers::{BufferAt, Buffers};
use crate::marks::{earlier, lesser};
use crate::moving::{Moving, Source};
use crate::reading::Reading;
use std::alloc::AllocError as OutOfMemory;
use tilt_base::Cell;
use tilt_code::Loop;
use tilt_stream::Seen;

// The ticks from `from + 1` to `to` ticks later than the grid point, over a buffer, each cell by a map.
#[derive(Drop)]
pub(crate) struct WindowLeaf {
    pub(crate) buffer: u32,
    pub(crate) from: i64,
    pub(crate) to: i64,
    pub(crate) map: Option<u32>,
    pub(crate) window: Moving,
}

impl WindowLeaf {
    // Moves on to the grid point of a reading, and gives what it reads there. It isn't inlined, so that a turn is small for the leaves that
    // stay.
    #[inline(never)]
    pub(crate) fn look<S: Buffers>(
        &mut self,
        reading: &Reading<'_, '_, S>,
        registers: &mut Vec<Cell>,
    ) -> Result<Seen, OutOfMemory>
        requires may { MayLook (S.lists reading.now.buffers.now) (S.forgotten reading.now.buffers.now) reading.now.each.now.maps
            reading.now.point (Window self.old) }
        requires fit { IsLeafBy (S.lists reading.now.buffers.now) reading.now.each.now.maps reading.now.point (Window self.old) }
        ensures { IfOk result (LooksTo (S.lists reading.now.buffers.now) reading.now.each.now.maps reading.now.point
            (Window self.old) (Window self.new)) }
    {
        self.move_to(reading.buffers, reading.each, reading.point, registers)?;
        Ok(Seen {
            cell: self.cell(),
            next: self.next(),
        })
    }

    // Moves on to a grid point.
    fn move_to<S: Buffers>(
        &mut self,
        buffers: &S,
        each: &Loop,
        point: i64,
        registers: &mut Vec<Cell>,
    ) -> Result<(), OutOfMemory>
        requires may { MayLook (S.lists buffers.now) (S.forgotten buffers.now) each.now.maps point (Window self.old) }
        requires fit { IsLeafBy (S.lists buffers.now) each.now.maps point (Window self.old) }
        ensures at { OnOk result (StandsAt (S.lists buffers.now) each.now.maps point self.new) }
        ensures same { OnOk result (origin (Window self.new) ≡ origin (Window self.old)) }
    {
        let buffer = BufferAt {
            buffers,
            number: self.buffer as usize,
        };
        let source = Source {
            buffer: &buffer,
            each,
            map: self.map,
        };
        let first = point + self.from + 1;
        let last = point + self.to;
        self.window.move_to(&source, first, last, registers)
    }

    // What the reducer gives at the grid point to which it moved last.
    #[inline]
    fn cell(&self) -> Cell
        ensures { (lists : List (List Snapshot)) (maps : List Block) (point : ℤ) → StandsAt lists maps point self.now
            → result ≡ (leaf_of (map stream_of lists) maps (origin (Window self.now))).cell point }
    {
        self.window.result()
    }

    // Its next mark above that grid point: that of its last tick or of its first.
    #[inline]
    fn next(&self) -> Option<i64>
        requires at { (lists : List (List Snapshot)) × (maps : List Block) × (point : ℤ) × IsBodyTick point
            × StandsAt lists maps point self.now }
        ensures next { (lists : List (List Snapshot)) (maps : List Block) (point : ℤ) → StandsAt lists maps point self.now
            → NamesNextMark (leaf_of (map stream_of lists) maps (origin (Window self.now))) point result }
        ensures bounds { IfSome result IsMarkTick }
    {
        lesser(
            earlier(self.window.next_behind(), self.to),
            earlier(self.window.next_within(), self.from + 1),
        )
    }
}
