// Instructions that read again what an earlier one of their body reads.
ghost use Rattle.std.specs.Prelude.{◌≡◌, ◌<◌, pos, get_or, length};
ghost use Rattle.std.specs.List.{AllByRecursion};
ghost use Rattle.std.specs.Option.{ForSome};
ghost use Rattle.tilt_code.specs.declared.instr.Instr.TheVariants.{Const};
ghost use Rattle.tilt_turn.specs.Held.{IsUnread};
ghost use Rattle.tilt_turn.specs.declared.placed.Placed.{Placed};

use crate::placed::Placed;
use tilt_code::Instr;

// So many of the latest leaves are looked at, so that the time stays linear.
const MOST_LOOKED_AT: usize = 64;

// The number of a leaf that reads what the instruction in a place of the body reads.
pub(crate) fn earlier_equal(body: &[Instr], place: usize, leaves: &[Placed]) -> Option<usize>
    requires place { place < length body.now }
    requires leaves { AllByRecursion (IsUnread body.now) leaves.now }
    ensures { ForSome result (λ number. (number < length leaves.now)
        × ((own : Placed) → own ≡ get_or leaves.now number own
        → get_or body.now own.place (Const (pos 0)) ≡ get_or body.now place (Const (pos 0)))) }
{
    let first = leaves.len().saturating_sub(MOST_LOOKED_AT);
    for number in first..leaves.len() {
        if body[leaves[number].place] == body[place] {
            return Some(number);
        }
    }
    None
}
