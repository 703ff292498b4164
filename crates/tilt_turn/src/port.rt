// A port, and where its buffer was last read.
ghost use Rattle.std.specs.Prelude.{ℤ, ◌≤ℤ◌, List};
ghost use Rattle.tilt_code.specs.Code.{Block};
ghost use Rattle.tilt_turn.specs.Held.{IsPortAt, origin};
ghost use Rattle.tilt_turn.specs.Ready.{IsBodyTick, IsKept};
ghost use Rattle.tilt_turn.specs.Stepped.{LooksTo};
ghost use Rattle.tilt_turn.specs.declared.leaf.Leaf.TheVariants.{Port};

use crate::buffers::{BufferAt, Buffers};
use crate::marks::earlier;
use tilt_stream::{Cursor, Seen};

// A buffer that is read so many ticks later than the grid point, and where it was read last.
#[derive(Drop)]
pub(crate) struct PortLeaf {
    pub(crate) buffer: u32,
    pub(crate) offset: i64,
    pub(crate) cursor: Cursor,
}

impl PortLeaf {
    // Moves on to a grid point, and gives what it reads there. It isn't inlined, so that a turn is small for the leaves that stay.
    #[inline(never)]
    pub(crate) fn look<S: Buffers>(&mut self, buffers: &S, point: i64) -> Seen
        requires near { IsBodyTick point }
        requires fit { (before : ℤ) × (before ≤ℤ point) × IsPortAt (S.lists buffers.now) before self.old }
        requires kept { IsKept (S.lists buffers.now) (S.forgotten buffers.now) point (origin (Port self.old)) }
        ensures { (maps : List Block) → LooksTo (S.lists buffers.now) maps point (Port self.old) (Port self.new) result }
    {
        let buffer = BufferAt {
            buffers,
            number: self.buffer as usize,
        };
        let seen = self.cursor.look(&buffer, point + self.offset);
        Seen {
            cell: seen.cell,
            next: earlier(seen.next, self.offset),
        }
    }
}
