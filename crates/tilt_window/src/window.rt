// What the kinds of windows share.
ghost use Rattle.std.specs.Prelude.{◌≡◌, ◌<◌, ℤ, List, [], ◌∷◌, ◌++◌, Option, length, IfOk, OnErr, OnOk};
ghost use Rattle.tilt_base.specs.Reduce.{numbers, reduce};
ghost use Rattle.tilt_base.specs.declared.reducer.Reducer.{Reducer};
ghost use Rattle.tilt_window.specs.Taken.{IsFirstTaken};

use std::alloc::AllocError as OutOfMemory;
use tilt_base::Cell;

/// A window over snapshots: the cells of those that it meets, in order, null ones included. Code that is generic over a
/// window knows of it only what is here.
pub trait Window {
    /// Which reducer it computes.
    ghost reducer: { Reducer };

    /// The cells in the window, in order.
    ghost cells: { Self → List (Option ℤ) };

    /// Adds the cell of one more snapshot after the others, of which there are fewer than 2^62. If memory runs out, the
    /// window is as before.
    fn push_back(&mut self, cell: Cell) -> Result<(), OutOfMemory>
        requires few { length (cells self.old) < 4611686018427387904 }
        ensures ok { OnOk result (cells self.new ≡ cells self.old ++ cell ∷ []) }
        ensures err { OnErr result (cells self.new ≡ cells self.old) };

    /// Takes the first cell out: none exactly if there is none. If memory runs out, the window is as before.
    fn pop_front(&mut self) -> Result<Option<Cell>, OutOfMemory>
        ensures ok { IfOk result (λ taken. IsFirstTaken (cells self.old) taken (cells self.new)) }
        ensures err { OnErr result (cells self.new ≡ cells self.old) };

    /// What the reducer gives on the cells that aren't null.
    fn result(&self) -> Cell
        ensures { result ≡ reduce reducer (numbers (cells self.now)) };

    /// Takes all cells out, and keeps the memory.
    fn clear(&mut self)
        ensures { cells self.new ≡ [] };
}
