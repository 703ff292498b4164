// Whether the numbers of a state fit.
ghost use Rattle.std.specs.Prelude.{◌↔◌, IsTrue};
ghost use Rattle.std.specs.Option.{ForSome};
ghost use Rattle.tilt_reading_state.specs.Valid as readings;
ghost use Rattle.tilt_run_state.specs.Valid.{IsInRange};

use crate::state::RunState;
use tilt_live_state;
use tilt_reading_state;
use tilt_reading_text::KeptText;

/// Whether a state is read back from its spelling, if it is valid: its counts, ticks and places are below 2^63. Its other numbers are
/// 64-bit numbers.
pub fn is_in_range(state: &RunState) -> bool
    ensures { IsTrue result ↔ IsInRange state.now }
{
    tilt_live_state::is_in_range(&state.state) && is_kept_in_range(&state.kept)
}

// Whether the numbers of what is kept fit, if something is.
fn is_kept_in_range(kept: &Option<KeptText>) -> bool
    ensures { IsTrue result ↔ ForSome kept.now readings.IsInRange }
{
    match kept {
        None => true,
        Some(kept) => tilt_reading_state::is_in_range(kept),
    }
}
