// The place of a watcher in the list as it was at first.
ghost use Rattle.std.specs.Prelude.{◌≡◌, [], ◌∷◌};
ghost use Rattle.tilt_watch.specs.Places.{figures_at, is_dropped, place_after, with_pair};

use crate::next::Next;
use crate::watcher::Watcher;
use tilt_stream::Row;

/// The place of a watcher in the list as it was at first, with the last figures of the watcher.
#[derive(Clone, Copy, Debug, PartialEq, Eq)]
pub enum Place {
    /// The watcher is still in the list.
    Watching((i64, i64)),
    /// The watcher has seen enough, and was dropped.
    Dropped((i64, i64)),
}

impl Place {
    /// Whether the watcher was dropped.
    pub fn is_dropped(self) -> bool
        ensures { result ≡ is_dropped self }
    {
        matches!(self, Place::Dropped(_))
    }

    /// The last figures of the watcher.
    pub fn figures(self) -> (i64, i64)
        ensures { result ≡ figures_at self }
    {
        match self {
            Place::Watching(pair) | Place::Dropped(pair) => pair,
        }
    }
}

// Lets a watcher see a row, and returns its place then.
pub(crate) fn see_row(watcher: &mut Box<dyn Watcher>, row: &Row) -> Place
    ensures place { result
        ≡ place_after (record { pair = pair watcher.old; step = step watcher.old; ends = ends watcher.old }) (row.now ∷ []) }
    ensures watcher { record { pair = pair watcher.new; step = step watcher.new; ends = ends watcher.new }
        ≡ with_pair (record { pair = pair watcher.old; step = step watcher.old; ends = ends watcher.old }) (figures_at result) }
{
    match watcher.see(row) {
        Next::More => Place::Watching(watcher.figures()),
        Next::Done => Place::Dropped(watcher.figures()),
    }
}
