// The window of two stacks.
ghost use Rattle.std.specs.Prelude.{◌≡◌, []};

use crate::merge::Merge;
use crate::state::add_cell;
use crate::turn::turn_over;
use crate::window::Window;
use std::alloc::{AllocError as OutOfMemory, Global};
use std::collections::VecDeque;
use std::marker::Model;
use tilt_base::Cell;

/// A window that keeps its cells. For each of the older ones it keeps the state of the numbers from it to the last of the older
/// ones. It also keeps one state of the newer ones' numbers. If there are no older cells, `pop_front` turns all newer ones over, to be
/// older ones, and can run out of memory then. So each cell is turned over once: a call takes one step on average, however many cells there
/// are.
#[derive(Drop)]
pub struct TwoStack<R: Merge> {
    cells: VecDeque<Cell>,
    // one for each of the older cells, which come first
    states: VecDeque<R::State>,
    newer: R::State,
}

impl<R: Merge> Model for TwoStack<R> {
    ghost use Rattle.std.specs.Prelude.{◌≤◌, ℤ, List, Option, length};
    ghost use Rattle.tilt_window.specs.Stacked.{IsStacked};

    ghost Value = { List (Option ℤ) };

    ghost view = { λ w. w.cells.items };

    ghost invariant = { λ w. (length w.cells.items ≤ 4611686018427387904) × IsStacked R.Holds w.states.items w.newer w.cells.items };
}

impl<R: Merge> TwoStack<R> {
    /// A window without cells. It takes no memory before the first cell comes.
    pub fn new(alloc: Global) -> TwoStack<R>
        ensures { result ≡ [] }
    {
        TwoStack {
            cells: VecDeque::new(alloc),
            states: VecDeque::new(alloc),
            newer: R::empty(),
        }
    }
}

impl<R: Merge> Window for TwoStack<R> {
    ghost reducer = { R.reducer };

    ghost cells = { λ window. window };

    // Inlined, since a window does it for each cell that comes in.
    #[inline(always)]
    fn push_back(&mut self, cell: Cell) -> Result<(), OutOfMemory> {
        self.cells.push_back(cell)?;
        add_cell::<R>(&mut self.newer, cell);
        Ok(())
    }

    fn pop_front(&mut self) -> Result<Option<Cell>, OutOfMemory> {
        turn_over::<R>(&self.cells, &mut self.states, &mut self.newer)?;
        self.states.pop_front();
        Ok(self.cells.pop_front())
    }

    fn result(&self) -> Cell {
        match self.states.front() {
            None => R::finish(&self.newer),
            Some(older) => R::finish(&R::merge(older, &self.newer)),
        }
    }

    fn clear(&mut self) {
        self.cells.clear();
        self.states.clear();
        self.newer = R::empty();
    }
}
