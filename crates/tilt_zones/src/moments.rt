// At which moments clocks show a local time.
ghost use Rattle.std.specs.Prelude.{◌≡◌, ◌-ℤ◌, ℤ};
ghost use Rattle.tilt_zones.specs.Order.{IsInOrder};
ghost use Rattle.tilt_zones.specs.Place.{AreMoments, chosen, moments_from};
ghost use Rattle.tilt_zones.specs.Taken.{IsByOffset, moment_by};
ghost use Rattle.tilt_zones.specs.Zone.{IsSkipped};

use crate::fault::LocalFault;
use crate::order::offset_after;
use crate::place::{count_from, moment_after};
use crate::transition::Transition;

/// Which moment is meant by a local time that clocks show twice or skip.
#[derive(Clone, Copy, Debug, PartialEq, Eq)]
pub enum Fold {
    /// The one by the offset before the change: the earlier one of a local time that is shown twice.
    First,
    /// The one by the offset after the change: the later one of a local time that is shown twice.
    Second,
}

// The moments at which clocks show a local time.
#[derive(Clone, Copy, Debug, PartialEq, Eq)]
pub(crate) enum Moments {
    Never,
    Once(i128),
    Twice(i128, i128),
}

// At which moments clocks show a local time: by the offset after the last transition that sets them to it or before, or by the one
// before that.
pub(crate) fn moments_of(first: i32, transitions: &[Transition], local: i64) -> Moments
    requires { IsInOrder first transitions.now }
    ensures { (end : ℤ) → AreMoments (record { first = first; transitions = transitions.now; end = end }) local result }
{
    let count = count_from(transitions, i128::from(local));
    let later = moment_after(first, transitions, count, local);
    if count == 0 {
        return moments_from(None, later);
    }
    moments_from(moment_after(first, transitions, count - 1, local), later)
}

// One or two moments, in order.
fn moments_from(earlier: Option<i128>, later: Option<i128>) -> Moments
    ensures { result ≡ moments_from earlier later }
{
    match (earlier, later) {
        (None, None) => Moments::Never,
        (Some(moment), None) | (None, Some(moment)) => Moments::Once(moment),
        (Some(first), Some(second)) => Moments::Twice(first, second),
    }
}

// The moment that is meant.
pub(crate) fn chosen(moments: Moments, fold: Option<Fold>) -> Result<i128, LocalFault>
    ensures { result ≡ chosen moments fold }
{
    match (moments, fold) {
        (Moments::Never, _) => Err(LocalFault::Skipped),
        (Moments::Once(moment), _) => Ok(moment),
        (Moments::Twice(..), None) => Err(LocalFault::Doubled),
        (Moments::Twice(first, _), Some(Fold::First)) => Ok(first),
        (Moments::Twice(_, second), Some(Fold::Second)) => Ok(second),
    }
}

// The moment of a local time that clocks skip, by the offset before the change or after it.
pub(crate) fn moment_by(first: i32, transitions: &[Transition], local: i64, fold: Fold) -> i128
    requires order { IsInOrder first transitions.now }
    requires skipped { (end : ℤ) → IsSkipped (record { first = first; transitions = transitions.now; end = end }) local }
    ensures by { (end : ℤ) → result ≡ moment_by (record { first = first; transitions = transitions.now; end = end }) fold local }
    ensures offset { (end : ℤ) → IsByOffset (record { first = first; transitions = transitions.now; end = end }) local fold result }
{
    let count = count_from(transitions, i128::from(local));
    match fold {
        Fold::First => moment_of(local, offset_after(first, transitions, count)),
        Fold::Second => moment_of(local, offset_after(first, transitions, count + 1)),
    }
}

// The moment at which clocks that are so far ahead show a local time.
fn moment_of(local: i64, offset: i32) -> i128
    ensures { result ≡ local -ℤ offset }
{
    i128::from(local) - i128::from(offset)
}
