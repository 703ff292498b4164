// A count and the maximum value, up to a value above a limit.
ghost use Rattle.std.specs.Prelude.{◌≡◌, ◌<ℤ◌};
ghost use Rattle.tilt_watch.specs.Kinds.{lowest, until_above_end, until_above_step, until_begin};

use crate::next::Next;
use crate::tally::add;
use crate::watcher::Watcher;
use tilt_stream::Row;

/// Counts rows and keeps the maximum value, until it is above a limit.
#[derive(Drop)]
pub struct UntilAbove {
    count: i64,
    greatest: i64,
    limit: i64,
}

impl UntilAbove {
    /// One that was shown nothing, and has seen enough once the maximum value is above `limit`.
    pub fn new(limit: i64) -> UntilAbove
        requires { lowest <ℤ limit }
        ensures pair { ⟦<UntilAbove as Watcher>⟧.pair result ≡ until_begin }
        ensures step { ⟦<UntilAbove as Watcher>⟧.step result ≡ until_above_step }
        ensures ends { ⟦<UntilAbove as Watcher>⟧.ends result ≡ until_above_end limit }
    {
        UntilAbove {
            count: 0,
            greatest: i64::MIN,
            limit,
        }
    }
}

impl Watcher for UntilAbove {
    ghost pair = { λ until. (until.count, until.greatest) };

    ghost step = { λ _. until_above_step };

    ghost ends = { λ until. until_above_end until.limit };

    fn see(&mut self, row: &Row) -> Next {
        if let Some(value) = row.value {
            self.count = add(self.count, 1);
            self.greatest = self.greatest.max(value);
        }
        Next::at(self.greatest > self.limit)
    }

    fn figures(&self) -> (i64, i64) {
        (self.count, self.greatest)
    }
}
