// What all watchers share.
ghost use Rattle.std.specs.Prelude.{◌≡◌, ℤ, Bool};
ghost use Rattle.tilt_stream.specs.Snap.{Snapshot};
ghost use Rattle.tilt_watch.specs.Watch.{next_of};

use crate::next::Next;
use tilt_stream::Row;

/// Something that sees snapshots that aren't null, row by row, and keeps a pair of figures, until it has seen enough.
pub trait Watcher: Drop {
    /// The figures now.
    ghost pair: { Self → ℤ × ℤ };

    /// The pair after a pair, when it sees a row.
    ghost step: { Self → ℤ × ℤ → Snapshot → ℤ × ℤ };

    /// Which pairs are ends: if a row leads to one, the watcher has seen enough. One that starts at an end still sees a row.
    ghost ends: { Self → ℤ × ℤ → Bool };

    /// Lets it see a row. It says `Done` exactly if its new pair is an end. Takes no memory.
    fn see(&mut self, row: &Row) -> Next
        ensures pair { pair self.new ≡ step self.old (pair self.old) row.now }
        ensures next { result ≡ next_of (ends self.old (pair self.new)) }
        ensures same { step self.new ≡ step self.old }
        ensures same_ends { ends self.new ≡ ends self.old };

    /// The figures.
    fn figures(&self) -> (i64, i64)
        ensures { result ≡ pair self.now };
}
