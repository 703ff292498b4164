// The first and the last number.
ghost use Rattle.std.specs.Prelude.{◌≡◌};
ghost use Rattle.tilt_base.specs.Reduce.{reduce};
ghost use Rattle.tilt_base.specs.declared.reducer.Reducer.TheVariants.{First, Last};

use crate::merge::Merge;
use crate::reduction::Reduction;
use tilt_base::Cell;

/// The first number.
pub struct FirstR;

impl Reduction for FirstR {
    type State = Cell;

    ghost reducer = { First };

    ghost Holds = { λ first ns. first ≡ reduce First ns };

    fn empty() -> Cell {
        None
    }

    fn add(state: &mut Cell, number: i64) {
        *state = state.or(Some(number));
    }

    fn finish(state: &Cell) -> Cell {
        *state
    }
}

impl Merge for FirstR {
    fn merge(a: &Cell, b: &Cell) -> Cell {
        a.or(*b)
    }
}

/// The last number.
pub struct LastR;

impl Reduction for LastR {
    type State = Cell;

    ghost reducer = { Last };

    ghost Holds = { λ last ns. last ≡ reduce Last ns };

    fn empty() -> Cell {
        None
    }

    fn add(state: &mut Cell, number: i64) {
        *state = Some(number);
    }

    fn finish(state: &Cell) -> Cell {
        *state
    }
}

impl Merge for LastR {
    fn merge(a: &Cell, b: &Cell) -> Cell {
        b.or(*a)
    }
}
