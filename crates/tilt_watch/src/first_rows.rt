// A count and a sum of the first rows.
ghost use Rattle.std.specs.Prelude.{◌≡◌, ◌≤◌, pos};
ghost use Rattle.tilt_watch.specs.Kinds.{first_rows_end, tally_begin, tally_step};

use crate::next::Next;
use crate::tally::add;
use crate::watcher::Watcher;
use tilt_stream::Row;

/// Counts rows and adds their values as `Tally` does, until `limit` rows were counted.
#[derive(Drop)]
pub struct FirstRows {
    count: i64,
    sum: i64,
    limit: i64,
}

impl FirstRows {
    /// One that was shown nothing, and has seen enough once it counted `limit` rows.
    pub fn new(limit: u64) -> FirstRows
        requires some { 1 ≤ limit }
        requires fits { limit ≤ 9223372036854775807 }
        ensures pair { ⟦<FirstRows as Watcher>⟧.pair result ≡ tally_begin }
        ensures step { ⟦<FirstRows as Watcher>⟧.step result ≡ tally_step }
        ensures ends { ⟦<FirstRows as Watcher>⟧.ends result ≡ first_rows_end (pos limit) }
    {
        FirstRows {
            count: 0,
            sum: 0,
            limit: limit as i64,
        }
    }
}

impl Watcher for FirstRows {
    ghost pair = { λ first. (first.count, first.sum) };

    ghost step = { λ _. tally_step };

    ghost ends = { λ first. first_rows_end first.limit };

    fn see(&mut self, row: &Row) -> Next {
        if let Some(value) = row.value {
            self.count = add(self.count, 1);
            self.sum = add(self.sum, value);
        }
        Next::at(self.count >= self.limit)
    }

    fn figures(&self) -> (i64, i64) {
        (self.count, self.sum)
    }
}
