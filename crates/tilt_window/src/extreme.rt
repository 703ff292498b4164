// The smallest and the largest number.
ghost use Rattle.std.specs.Prelude.{◌≡◌};
ghost use Rattle.tilt_base.specs.Reduce.{reduce};
ghost use Rattle.tilt_base.specs.declared.reducer.Reducer.TheVariants.{Max, Min};

use crate::merge::Merge;
use crate::reduction::Reduction;
use tilt_base::Cell;

/// The smallest number.
pub struct MinR;

impl Reduction for MinR {
    type State = Cell;

    ghost reducer = { Min };

    ghost Holds = { λ least ns. least ≡ reduce Min ns };

    fn empty() -> Cell {
        None
    }

    fn add(state: &mut Cell, number: i64) {
        match state {
            None => *state = Some(number),
            Some(least) => *least = number.min(*least),
        }
    }

    fn finish(state: &Cell) -> Cell {
        *state
    }
}

impl Merge for MinR {
    fn merge(a: &Cell, b: &Cell) -> Cell {
        match (*a, *b) {
            (Some(least_a), Some(least_b)) => Some(least_a.min(least_b)),
            (a, b) => a.or(b),
        }
    }
}

/// The largest number.
pub struct MaxR;

impl Reduction for MaxR {
    type State = Cell;

    ghost reducer = { Max };

    ghost Holds = { λ greatest ns. greatest ≡ reduce Max ns };

    fn empty() -> Cell {
        None
    }

    fn add(state: &mut Cell, number: i64) {
        match state {
            None => *state = Some(number),
            Some(greatest) => *greatest = number.max(*greatest),
        }
    }

    fn finish(state: &Cell) -> Cell {
        *state
    }
}

impl Merge for MaxR {
    fn merge(a: &Cell, b: &Cell) -> Cell {
        match (*a, *b) {
            (Some(greatest_a), Some(greatest_b)) => Some(greatest_a.max(greatest_b)),
            (a, b) => a.or(b),
        }
    }
}
