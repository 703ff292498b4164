// A count and a sum.
ghost use Rattle.std.specs.Prelude.{◌≡◌, ◌+ℤ◌};
ghost use Rattle.tilt_watch.specs.Kinds.{no_end, saturated, tally_begin, tally_step};

use crate::next::Next;
use crate::watcher::Watcher;
use tilt_stream::Row;

/// Counts rows and adds their values. Both stop at the ends of 64 bits.
#[derive(Drop)]
pub struct Tally {
    count: i64,
    sum: i64,
}

impl Tally {
    /// One that was shown nothing.
    pub fn new() -> Tally
        ensures pair { ⟦<Tally as Watcher>⟧.pair result ≡ tally_begin }
        ensures step { ⟦<Tally as Watcher>⟧.step result ≡ tally_step }
        ensures ends { ⟦<Tally as Watcher>⟧.ends result ≡ no_end }
    {
        Tally { count: 0, sum: 0 }
    }
}

impl Watcher for Tally {
    ghost pair = { λ tally. (tally.count, tally.sum) };

    ghost step = { λ _. tally_step };

    ghost ends = { λ _. no_end };

    fn see(&mut self, row: &Row) -> Next {
        if let Some(value) = row.value {
            self.count = add(self.count, 1);
            self.sum = add(self.sum, value);
        }
        Next::More
    }

    fn figures(&self) -> (i64, i64) {
        (self.count, self.sum)
    }
}

// The sum, or the end of 64 bits that is nearest to it.
#[tactic(auto, using(crate::proofs::Saturated::saturated_is))]
pub(crate) fn add(a: i64, b: i64) -> i64
    ensures { result ≡ saturated (a +ℤ b) }
{
    a.saturating_add(b)
}
