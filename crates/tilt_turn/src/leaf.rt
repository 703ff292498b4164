// The leaves of a body, each with its cursor.
ghost use Rattle.std.specs.Prelude.{◌≡◌, ℤ, true, false, List, ◌≤ℤ◌, neg_ℤ, length, None, IfOk, IfSome};
ghost use Rattle.tilt_base.specs.declared.limits.TheConstants.{WIDE};
ghost use Rattle.tilt_code.specs.Code.{Block};
ghost use Rattle.tilt_stream.specs.Snap.{Snapshot};
ghost use Rattle.tilt_turn.specs.Again.{leaf_again};
ghost use Rattle.tilt_turn.specs.Held.{IsLeafAt, IsLeafBy, origin};
ghost use Rattle.tilt_turn.specs.Picked.{reads};
ghost use Rattle.tilt_turn.specs.Ready.{IsReadable};
ghost use Rattle.tilt_turn.specs.Stepped.{LooksTo, MayLook};

use crate::buffers::Buffers;
use crate::moving::Moving;
use crate::port::PortLeaf;
use crate::reading::Reading;
use crate::span::WindowLeaf;
use std::alloc::{AllocError as OutOfMemory, Global};
use tilt_base::Cell;
use tilt_code::Instr;
use tilt_stream::{Cursor, Seen};

// An instruction of a body that reads a buffer.
#[derive(Drop)]
pub(crate) enum Leaf {
    Port(PortLeaf),
    Window(WindowLeaf),
}

impl Leaf {
    // The leaf of an instruction, if it reads a buffer. It has read nothing so far, and is fit for any buffers.
    pub(crate) fn new(alloc: Global, instr: Instr) -> Option<Leaf>
        ensures none { result ≡ None → reads instr ≡ false }
        ensures reads { IfSome result (λ own. reads instr ≡ true) }
        ensures same { IfSome result (λ own. origin own ≡ instr) }
        ensures fit { IfSome result (λ own. (lists : List (List Snapshot)) (maps : List Block) (point : ℤ)
            → IsReadable (length lists) (length maps) instr → neg_ℤ WIDE ≤ℤ point → IsLeafAt lists maps point own) }
    {
        match instr {
            Instr::Port { buffer, offset } => Some(Leaf::Port(PortLeaf {
                buffer,
                offset,
                cursor: Cursor::new(),
            })),
            Instr::Win {
                reducer,
                buffer,
                from,
                to,
                map,
            } => Some(Leaf::Window(WindowLeaf {
                buffer,
                from,
                to,
                map,
                window: Moving::new(alloc, reducer),
            })),
            _ => None,
        }
    }

    // Moves on to the grid point of a reading, and gives what it reads there.
    #[inline]
    pub(crate) fn look<S: Buffers>(
        &mut self,
        reading: &Reading<'_, '_, S>,
        arguments: &mut Vec<Cell>,
    ) -> Result<Seen, OutOfMemory>
        requires may { MayLook (S.lists reading.now.buffers.now) (S.forgotten reading.now.buffers.now) reading.now.each.now.maps
            reading.now.point self.old }
        requires fit { IsLeafBy (S.lists reading.now.buffers.now) reading.now.each.now.maps reading.now.point self.old }
        ensures { IfOk result
            (LooksTo (S.lists reading.now.buffers.now) reading.now.each.now.maps reading.now.point self.old self.new) }
    {
        match self {
            Leaf::Port(port) => Ok(port.look(reading.buffers, reading.point)),
            Leaf::Window(window) => window.look(reading, arguments),
        }
    }

    // Forgets the next mark that a window has seen. A port keeps none.
    pub(crate) fn look_again(&mut self)
        ensures { self.new ≡ leaf_again self.old }
    {
        match self {
            Leaf::Port(_) => {}
            Leaf::Window(leaf) => leaf.window.forget_next(),
        }
    }
}
