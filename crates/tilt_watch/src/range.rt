// The minimum and the maximum value.
ghost use Rattle.std.specs.Prelude.{◌≡◌};
ghost use Rattle.tilt_watch.specs.Kinds.{extremes_begin, no_end, range_step};

use crate::next::Next;
use crate::watcher::Watcher;
use tilt_stream::Row;

/// Keeps the minimum and the maximum value.
#[derive(Drop)]
pub struct Range {
    least: i64,
    greatest: i64,
}

impl Range {
    /// One that was shown nothing.
    pub fn new() -> Range
        ensures pair { ⟦<Range as Watcher>⟧.pair result ≡ extremes_begin }
        ensures step { ⟦<Range as Watcher>⟧.step result ≡ range_step }
        ensures ends { ⟦<Range as Watcher>⟧.ends result ≡ no_end }
    {
        Range {
            least: i64::MAX,
            greatest: i64::MIN,
        }
    }
}

impl Watcher for Range {
    ghost pair = { λ range. (range.least, range.greatest) };

    ghost step = { λ _. range_step };

    ghost ends = { λ _. no_end };

    fn see(&mut self, row: &Row) -> Next {
        if let Some(value) = row.value {
            self.least = self.least.min(value);
            self.greatest = self.greatest.max(value);
        }
        Next::More
    }

    fn figures(&self) -> (i64, i64) {
        (self.least, self.greatest)
    }
}
