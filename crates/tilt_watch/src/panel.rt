// The watchers of a list, and what is left of it.
ghost use Rattle.std.specs.Prelude.{◌≡◌, ◌<◌, ◌++◌, ◌+◌, [], ◌∷◌, List, Some, length, slice_get, IfOk};
ghost use Rattle.tilt_watch.specs.Places.{AreInStep, figures_of, left_after, left_at, place_after, places_after, places_of};
ghost use Rattle.tilt_watch.specs.Watch.{Watch, watches};
ghost use Rattle.tilt_watch.specs.declared.place.Place.TheVariants.{Watching, Dropped};

use crate::place::{Place, see_row};
use crate::watcher::Watcher;
use std::alloc::{AllocError as OutOfMemory, Global};
use std::marker::Model;
use tilt_stream::Row;

/// The places of watchers in a list as it was at first: which are still in the list, and the last figures of each.
#[derive(Drop)]
pub struct Panel {
    places: Vec<Place>,
}

impl Model for Panel {
    ghost use Rattle.std.specs.Prelude.{List};
    ghost use Rattle.tilt_watch.specs.declared.place.Place.{Place};

    ghost Value = { List Place };

    ghost view = { λ p. p.places.items };
}

impl Panel {
    /// The places of all watchers of a list, with their figures now.
    pub fn new(alloc: Global, list: &[Box<dyn Watcher>]) -> Result<Panel, OutOfMemory>
        ensures { IfOk result (λ panel. panel ≡ places_of (watches pair step ends list.now)) }
    {
        let mut places = Vec::new(alloc);
        for watcher in list {
            places.push(place_of(watcher))?;
        }
        Ok(Panel { places })
    }

    /// Lets each watcher of the list see the row, and drops those that have seen enough. The others keep their order. Takes no memory.
    pub fn see(&mut self, list: &mut Vec<Box<dyn Watcher>>, row: &Row)
        requires { AreInStep self.old (watches pair step ends list.old.items) }
        ensures places { self.new ≡ places_after self.old (watches pair step ends list.old.items) (row.now ∷ []) }
        ensures list { watches pair step ends list.new.items ≡ left_after (watches pair step ends list.old.items) (row.now ∷ []) }
        ensures in_step { AreInStep self.new (watches pair step ends list.new.items) }
    {
        let mut at = 0;
        for i in 0..self.places.len() {
            at = see_at(&mut self.places[i], list, at, row);
        }
    }

    // The places, in order.
    pub(crate) fn places(&self) -> &[Place]
        ensures { result.now ≡ self.now }
    {
        &self.places
    }

    /// How many watchers the list had at first.
    pub fn count(&self) -> usize
        ensures { result ≡ length self.now }
    {
        self.places.len()
    }

    /// The last figures of one of them, by its place from 0.
    pub fn figures(&self, i: usize) -> (i64, i64)
        requires { i < length self.now }
        ensures { slice_get (figures_of self.now) i ≡ Some result }
    {
        self.places[i].figures()
    }
}

// The place of a watcher of a list as it is at first.
fn place_of(watcher: &Box<dyn Watcher>) -> Place
    ensures { result ≡ Watching (pair watcher.now) }
{
    Place::Watching(watcher.figures())
}

// Lets the watcher of a place see the row, if it is still there, which is then at `at` of the list. Returns where the watcher of the next
// place is that still has one.
fn see_at(place: &mut Place, list: &mut Vec<Box<dyn Watcher>>, at: usize, row: &Row) -> usize
    requires { (figures : _) → place.old ≡ Watching figures → at < length list.old.items }
    ensures dropped { (figures : _) → place.old ≡ Dropped figures
        → (place.new ≡ place.old)
        × (watches pair step ends list.new.items ≡ watches pair step ends list.old.items) × (result ≡ at) }
    ensures watching { (figures : _) (kept : List Watch) (watch : Watch) (rest : List Watch) → place.old ≡ Watching figures
        → watches pair step ends list.old.items ≡ kept ++ watch ∷ rest → at ≡ length kept
        → (place.new ≡ place_after watch (row.now ∷ []))
        × (watches pair step ends list.new.items ≡ kept ++ left_at watch place.new ++ rest)
        × (result ≡ at + length (left_at watch place.new)) }
{
    if place.is_dropped() {
        return at;
    }
    *place = see_one(list, at, row);
    if place.is_dropped() { at } else { at + 1 }
}

// Lets the watcher at `at` of the list see the row, and drops it if it has seen enough. Returns its place then.
fn see_one(list: &mut Vec<Box<dyn Watcher>>, at: usize, row: &Row) -> Place
    requires { at < length list.old.items }
    ensures { (kept : List Watch) (watch : Watch) (rest : List Watch) → watches pair step ends list.old.items ≡ kept ++ watch ∷ rest
        → at ≡ length kept → (result ≡ place_after watch (row.now ∷ []))
        × (watches pair step ends list.new.items ≡ kept ++ left_at watch result ++ rest) }
{
    let place = see_row(&mut list[at], row);
    if place.is_dropped() {
        list.remove(at);
    }
    place
}
