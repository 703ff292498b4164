// Turning the stack of newer cells over.
ghost use Rattle.std.specs.Prelude.{◌≡◌, ◌≤◌, ◌<◌, ℤ, List, [], ◌∷◌, Option, length, OnOk};
ghost use Rattle.tilt_base.specs.Reduce.{numbers};
ghost use Rattle.tilt_window.specs.Stacked.{AreStatesFromEach, IsStacked};

use crate::merge::Merge;
use crate::state::add_cell;
use std::alloc::AllocError as OutOfMemory;
use std::collections::VecDeque;
use tilt_base::Cell;

// The state of the number of this cell and those of all cells after it.
fn state_from<R: Merge>(cell: Cell, behind: &VecDeque<R::State>) -> R::State
    requires { (cells : List (Option ℤ)) × (length cells < 4611686018427387904) × AreStatesFromEach R.Holds behind.now.items cells }
    ensures { (cells : List (Option ℤ)) → length cells < 4611686018427387904 →
        AreStatesFromEach R.Holds behind.now.items cells → R.Holds result (numbers (cell ∷ cells)) }
{
    let mut first = R::empty();
    add_cell::<R>(&mut first, cell);
    match behind.front() {
        None => first,
        Some(state) => R::merge(&first, state),
    }
}

// Pushes the states of all cells.
fn put_states<R: Merge>(
    cells: &VecDeque<Cell>,
    states: &mut VecDeque<R::State>,
) -> Result<(), OutOfMemory>
    requires none { states.old.items ≡ [] }
    requires few { length cells.now.items ≤ 4611686018427387904 }
    ensures { OnOk result (AreStatesFromEach R.Holds states.new.items cells.now.items) }
{
    for index in (0..cells.len()).rev() {
        let state = state_from::<R>(cells[index], states);
        states.push_front(state)?;
    }
    Ok(())
}

// Makes newer cells older ones if there is no older one. If memory runs out, all of them are newer ones.
pub(crate) fn turn_over<R: Merge>(
    cells: &VecDeque<Cell>,
    states: &mut VecDeque<R::State>,
    newer: &mut R::State,
) -> Result<(), OutOfMemory>
    requires few { length cells.now.items ≤ 4611686018427387904 }
    requires stacked { IsStacked R.Holds states.old.items newer.old cells.now.items }
    ensures stacked { IsStacked R.Holds states.new.items newer.new cells.now.items }
    ensures turned { OnOk result (states.new.items ≡ [] → cells.now.items ≡ []) }
{
    if !states.is_empty() {
        return Ok(());
    }
    if let Err(error) = put_states::<R>(cells, states) {
        states.clear();
        return Err(error);
    }
    *newer = R::empty();
    Ok(())
}
