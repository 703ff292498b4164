// The window that reduces all of its cells again each time.
ghost use Rattle.std.specs.Prelude.{◌≡◌, []};
ghost use Rattle.tilt_window.specs.Taken.{IsFirstTaken};

use crate::reduction::Reduction;
use crate::window::Window;
use std::alloc::{AllocError as OutOfMemory, Global};
use std::collections::VecDeque;
use std::marker::{Model, PhantomData};
use tilt_base::Cell;

/// A window that keeps its cells, and reduces all of them at each `result`.
#[derive(Drop)]
pub struct Refold<R: Reduction> {
    cells: VecDeque<Cell>,
    reduction: PhantomData<R>,
}

impl<R: Reduction> Model for Refold<R> {
    ghost use Rattle.std.specs.Prelude.{◌≤◌, ℤ, List, Option, length};

    ghost Value = { List (Option ℤ) };

    ghost view = { λ w. w.cells.items };

    ghost invariant = { λ w. length w.cells.items ≤ 4611686018427387904 };
}

impl<R: Reduction> Refold<R> {
    /// A window without cells. It takes no memory before the first cell comes.
    pub fn new(alloc: Global) -> Refold<R>
        ensures { result ≡ [] }
    {
        Refold {
            cells: VecDeque::new(alloc),
            reduction: PhantomData,
        }
    }

    /// Takes the first cell out: none exactly if there is none.
    pub fn take_first(&mut self) -> Option<Cell>
        ensures { IsFirstTaken self.old result self.new }
    {
        self.cells.pop_front()
    }
}

impl<R: Reduction> Window for Refold<R> {
    ghost reducer = { R.reducer };

    ghost cells = { λ window. window };

    fn push_back(&mut self, cell: Cell) -> Result<(), OutOfMemory> {
        self.cells.push_back(cell)?;
        Ok(())
    }

    /// Does what `take_first` does, and so takes no memory.
    fn pop_front(&mut self) -> Result<Option<Cell>, OutOfMemory> {
        Ok(self.take_first())
    }

    fn result(&self) -> Cell {
        let mut state = R::empty();
        for cell in self.cells.iter() {
            if let Some(number) = cell {
                R::add(&mut state, *number);
            }
        }
        R::finish(&state)
    }

    fn clear(&mut self) {
        self.cells.clear();
    }
}
