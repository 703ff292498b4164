// A count and the end of the last row, up to a time.
ghost use Rattle.std.specs.Prelude.{◌≡◌};
ghost use Rattle.tilt_watch.specs.Kinds.{until_begin, until_time_end, until_time_step};

use crate::next::Next;
use crate::tally::add;
use crate::watcher::Watcher;
use tilt_stream::Row;

/// Counts rows and keeps the end of the last one, in ticks, until a row ends at a limit or later.
#[derive(Drop)]
pub struct UntilTime {
    count: i64,
    end: i64,
    limit: i64,
}

impl UntilTime {
    /// One that was shown nothing, and has seen enough once a row ends at `limit`, in ticks, or later.
    pub fn new(limit: i64) -> UntilTime
        ensures pair { ⟦<UntilTime as Watcher>⟧.pair result ≡ until_begin }
        ensures step { ⟦<UntilTime as Watcher>⟧.step result ≡ until_time_step }
        ensures ends { ⟦<UntilTime as Watcher>⟧.ends result ≡ until_time_end limit }
    {
        UntilTime {
            count: 0,
            end: i64::MIN,
            limit,
        }
    }
}

impl Watcher for UntilTime {
    ghost pair = { λ until. (until.count, until.end) };

    ghost step = { λ _. until_time_step };

    ghost ends = { λ until. until_time_end until.limit };

    fn see(&mut self, row: &Row) -> Next {
        self.count = add(self.count, 1);
        self.end = row.end;
        Next::at(self.end >= self.limit && self.count != 0)
    }

    fn figures(&self) -> (i64, i64) {
        (self.count, self.end)
    }
}
