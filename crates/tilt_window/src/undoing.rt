// The window that takes numbers back.
ghost use Rattle.std.specs.Prelude.{◌≡◌, []};
ghost use Rattle.tilt_window.specs.Taken.{IsFirstTaken};

use crate::state::{add_cell, remove_cell};
use crate::undo::Undo;
use crate::window::Window;
use std::alloc::{AllocError as OutOfMemory, Global};
use std::collections::VecDeque;
use std::marker::Model;
use tilt_base::Cell;

/// A window that keeps its cells and one state of their numbers: each call takes one step, however many cells there are.
#[derive(Drop)]
pub struct Undoing<R: Undo> {
    cells: VecDeque<Cell>,
    state: R::State,
}

impl<R: Undo> Model for Undoing<R> {
    ghost use Rattle.std.specs.Prelude.{◌≤◌, ℤ, List, Option, length};
    ghost use Rattle.tilt_base.specs.Reduce.{numbers};

    ghost Value = { List (Option ℤ) };

    ghost view = { λ w. w.cells.items };

    ghost invariant = { λ w. (length w.cells.items ≤ 4611686018427387904) × R.Holds w.state (numbers w.cells.items) };
}

impl<R: Undo> Undoing<R> {
    /// A window without cells. It takes no memory before the first cell comes.
    pub fn new(alloc: Global) -> Undoing<R>
        ensures { result ≡ [] }
    {
        Undoing {
            cells: VecDeque::new(alloc),
            state: R::empty(),
        }
    }

    /// Takes the first cell out: none exactly if there is none.
    pub fn take_first(&mut self) -> Option<Cell>
        ensures { IsFirstTaken self.old result self.new }
    {
        let taken = self.cells.pop_front();
        if let Some(cell) = taken {
            remove_cell::<R>(&mut self.state, cell);
        }
        taken
    }
}

impl<R: Undo> Window for Undoing<R> {
    ghost reducer = { R.reducer };

    ghost cells = { λ window. window };

    // Inlined, since a window does it for each cell that comes in.
    #[inline(always)]
    fn push_back(&mut self, cell: Cell) -> Result<(), OutOfMemory> {
        self.cells.push_back(cell)?;
        add_cell::<R>(&mut self.state, cell);
        Ok(())
    }

    /// Does what `take_first` does, and so takes no memory.
    fn pop_front(&mut self) -> Result<Option<Cell>, OutOfMemory> {
        Ok(self.take_first())
    }

    fn result(&self) -> Cell {
        R::finish(&self.state)
    }

    fn clear(&mut self) {
        self.cells.clear();
        self.state = R::empty();
    }
}
