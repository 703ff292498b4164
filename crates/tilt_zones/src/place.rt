// Where moments and local times are among transitions.
ghost use Rattle.std.specs.Prelude.{◌≡◌, ◌≤◌, ◌-ℤ◌, length, MatchOption};
ghost use Rattle.tilt_zones.specs.Order.{offset_after, shown_from};
ghost use Rattle.tilt_zones.specs.Place.{IsBeforeNext, IsPlaceOf, IsRising};

use crate::order::offset_after;
use crate::transition::Transition;

// How many transitions come up to a moment.
pub(crate) fn count_at(transitions: &[Transition], moment: i64) -> usize
    requires { IsRising transitions.now }
    ensures { IsPlaceOf (λ t. t.moment) transitions.now moment result }
{
    transitions.partition_point(|t| t.moment <= moment)
}

// How many transitions set clocks to a local time up to this one.
pub(crate) fn count_from(transitions: &[Transition], local: i128) -> usize
    requires { IsRising transitions.now }
    ensures { IsPlaceOf shown_from transitions.now local result }
{
    transitions.partition_point(|t| t.shown_from() <= local)
}

// The moment at which clocks show a local time by the offset after so many transitions, if it is before the next one.
pub(crate) fn moment_after(
    first: i32,
    transitions: &[Transition],
    count: usize,
    local: i64,
) -> Option<i128>
    requires { count ≤ length transitions.now }
    ensures { MatchOption result
        (¬ (IsBeforeNext first transitions.now count local))
        (λ m. IsBeforeNext first transitions.now count local × (m ≡ local -ℤ offset_after first transitions.now count)) }
{
    let moment = i128::from(local) - i128::from(offset_after(first, transitions, count));
    if count < transitions.len() && moment >= i128::from(transitions[count].moment) {
        return None;
    }
    Some(moment)
}
