// Whether transitions are in order.
ghost use Rattle.std.specs.Prelude.{◌≡◌, ◌↔◌, ◌≤◌, ◌+ℤ◌, IsTrue, length};
ghost use Rattle.tilt_zones.specs.Order.{IsFollowedBy, IsInOrder, offset_after, shown_from};

use crate::transition::Transition;

impl Transition {
    // The local time to which clocks are set.
    pub(crate) fn shown_from(self) -> i128
        ensures { result ≡ shown_from self }
    {
        local_by(self.moment, self.offset)
    }
}

// The local time that clocks show at a moment by an offset.
fn local_by(moment: i64, offset: i32) -> i128
    ensures { result ≡ moment +ℤ offset }
{
    i128::from(moment) + i128::from(offset)
}

// Whether each transition is followed by the next one.
pub(crate) fn is_in_order(first: i32, transitions: &[Transition]) -> bool
    ensures { IsTrue result ↔ IsInOrder first transitions.now }
{
    for i in 1..transitions.len() {
        let before = offset_after(first, transitions, i - 1);
        if !is_followed_by(before, transitions[i - 1], transitions[i]) {
            return false;
        }
    }
    true
}

// The offset after so many transitions.
pub(crate) fn offset_after(first: i32, transitions: &[Transition], count: usize) -> i32
    requires { count ≤ length transitions.now }
    ensures { result ≡ offset_after first transitions.now count }
{
    if count == 0 {
        return first;
    }
    transitions[count - 1].offset
}

// Whether a transition, with the offset before it, is followed by another one.
fn is_followed_by(before: i32, transition: Transition, next: Transition) -> bool
    ensures { IsTrue result ↔ IsFollowedBy before transition next }
{
    if transition.moment >= next.moment {
        return false;
    }
    let from = next.shown_from();
    if local_by(transition.moment, before) > from {
        return false;
    }
    transition.shown_from() <= from
}
