// Watchers that are shown snapshots.
ghost use Rattle.std.specs.Prelude.{[], ◌∷◌, ◌≡◌};
ghost use Rattle.tilt_watch.specs.Places.{AreInStep, left_after, places_after};
ghost use Rattle.tilt_watch.specs.Watch.{rows_of, watches};

use crate::panel::Panel;
use crate::watcher::Watcher;
use tilt_stream::{Snap, SnapList};

/// Lets the watchers of the list see the snapshots that aren't null, in order, and drops each once it has seen enough. Takes no memory.
pub fn show(list: &mut Vec<Box<dyn Watcher>>, panel: &mut Panel, rows: &SnapList)
    requires { AreInStep panel.old (watches pair step ends list.old.items) }
    ensures places { panel.new ≡ places_after panel.old (watches pair step ends list.old.items) (rows_of rows.now) }
    ensures list { watches pair step ends list.new.items ≡ left_after (watches pair step ends list.old.items) (rows_of rows.now) }
    ensures in_step { AreInStep panel.new (watches pair step ends list.new.items) }
{
    for snap in rows.as_slice() {
        show_snap(list, panel, snap);
    }
}

/// The same for one snapshot.
pub fn show_snap(list: &mut Vec<Box<dyn Watcher>>, panel: &mut Panel, snap: &Snap)
    requires { AreInStep panel.old (watches pair step ends list.old.items) }
    ensures places { panel.new ≡ places_after panel.old (watches pair step ends list.old.items) (rows_of (snap.now ∷ [])) }
    ensures list { watches pair step ends list.new.items ≡ left_after (watches pair step ends list.old.items) (rows_of (snap.now ∷ [])) }
    ensures in_step { AreInStep panel.new (watches pair step ends list.new.items) }
{
    if snap.value.is_some() {
        panel.see(list, snap);
    }
}
