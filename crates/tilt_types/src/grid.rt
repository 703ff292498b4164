// The grids that a query writes.
ghost use Rattle.std.specs.Prelude.{◌≡◌, true, false, MatchOption};
ghost use Rattle.tilt_base.specs.Grid.{is_grid};
ghost use Rattle.tilt_types.specs.WellFormed.{grid_of};

use tilt_base::Grid;
use tilt_syntax::Every;

// The grid that is written after `every`, or each tick where none is; `None` where what is written is no grid.
pub(crate) fn grid_of(every: Option<Every>) -> Option<Grid>
    ensures { MatchOption result
        (is_grid (grid_of every) ≡ false)
        (λ grid. (grid ≡ grid_of every) × (is_grid grid ≡ true)) }
{
    match every {
        None => Grid::new(1, 0),
        Some(Every { period, offset }) => Grid::new(period, offset),
    }
}
