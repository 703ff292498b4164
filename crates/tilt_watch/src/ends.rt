// The minimum start and the maximum end.
ghost use Rattle.std.specs.Prelude.{◌≡◌};
ghost use Rattle.tilt_watch.specs.Kinds.{ends_step, extremes_begin, no_end};

use crate::next::Next;
use crate::watcher::Watcher;
use tilt_stream::Row;

/// Keeps the minimum start and the maximum end, in ticks.
#[derive(Drop)]
pub struct Ends {
    start: i64,
    end: i64,
}

impl Ends {
    /// One that was shown nothing.
    pub fn new() -> Ends
        ensures pair { ⟦<Ends as Watcher>⟧.pair result ≡ extremes_begin }
        ensures step { ⟦<Ends as Watcher>⟧.step result ≡ ends_step }
        ensures ends { ⟦<Ends as Watcher>⟧.ends result ≡ no_end }
    {
        Ends {
            start: i64::MAX,
            end: i64::MIN,
        }
    }
}

impl Watcher for Ends {
    ghost pair = { λ ends. (ends.start, ends.end) };

    ghost step = { λ _. ends_step };

    ghost ends = { λ _. no_end };

    fn see(&mut self, row: &Row) -> Next {
        self.start = self.start.min(row.start);
        self.end = self.end.max(row.end);
        Next::More
    }

    fn figures(&self) -> (i64, i64) {
        (self.start, self.end)
    }
}
