// A state with one cell more or less.
ghost use Rattle.std.specs.Prelude.{◌<◌, ℤ, List, [], ◌∷◌, ◌++◌, Option, length};
ghost use Rattle.tilt_base.specs.Reduce.{numbers};

use crate::reduction::Reduction;
use crate::undo::Undo;
use tilt_base::Cell;

// Adds the cell's number, if it has one.
pub(crate) fn add_cell<R: Reduction>(state: &mut R::State, cell: Cell)
    requires { (cells : List (Option ℤ)) × R.Holds state.old (numbers cells) × (length cells < 9223372036854775807) }
    ensures { (cells : List (Option ℤ)) → length cells < 9223372036854775807 →
        R.Holds state.old (numbers cells) → R.Holds state.new (numbers (cells ++ cell ∷ [])) }
{
    if let Some(number) = cell {
        R::add(state, number);
    }
}

// Takes the first cell's number back, if it has one.
pub(crate) fn remove_cell<R: Undo>(state: &mut R::State, cell: Cell)
    requires { (cells : List (Option ℤ)) × R.Holds state.old (numbers (cell ∷ cells)) }
    ensures { (cells : List (Option ℤ)) → R.Holds state.old (numbers (cell ∷ cells)) → R.Holds state.new (numbers cells) }
{
    if let Some(number) = cell {
        R::remove_first(state, number);
    }
}
