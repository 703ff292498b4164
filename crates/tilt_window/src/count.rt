// The number of the numbers.
ghost use Rattle.std.specs.Prelude.{◌≡◌, length, pos};
ghost use Rattle.tilt_base.specs.declared.reducer.Reducer.TheVariants.{Count};

use crate::merge::Merge;
use crate::reduction::Reduction;
use crate::undo::Undo;
use tilt_base::Cell;

/// Counts the numbers.
pub struct CountR;

impl Reduction for CountR {
    type State = i64;

    ghost reducer = { Count };

    ghost Holds = { λ count ns. count ≡ pos (length ns) };

    fn empty() -> i64 {
        0
    }

    fn add(state: &mut i64, _number: i64) {
        *state += 1;
    }

    fn finish(state: &i64) -> Cell {
        (*state != 0).then_some(*state)
    }
}

impl Undo for CountR {
    fn remove_first(state: &mut i64, _number: i64) {
        *state -= 1;
    }
}

impl Merge for CountR {
    fn merge(a: &i64, b: &i64) -> i64 {
        *a + *b
    }
}
