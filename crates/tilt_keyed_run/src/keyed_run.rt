// The runs of all keys of a feed.
ghost use Rattle.std.specs.Prelude.{◌≡◌, ◌&&◌, ◌++◌, ◌∷◌, ℕ, List, [], length, map, nat_le, not, option_map, None, IfOk, OnErr, OnOk};
ghost use Rattle.std.specs.List.{position};
ghost use Rattle.std.specs.Str.{bytes_eq};
ghost use Rattle.tilt_keyed_line.specs.Address.{address};
ghost use Rattle.tilt_keyed_line.specs.Feeds.{KeyFeed, KeyedFeed, after_address, after_key, after_own, empty_keyed_feed, given};
ghost use Rattle.tilt_keyed_line.specs.Outputs.{with_key};
ghost use Rattle.tilt_keyed_run.specs.Halts.{FullBy};
ghost use Rattle.tilt_keyed_run.specs.Output.{address_exceeds, address_fault, address_output, alone, every_fault, every_output};
ghost use Rattle.tilt_keyed_run.specs.Output.{is_known, key_exceeds, key_fault, key_output, own_fault, own_output, written};
ghost use Rattle.tilt_keyed_run.specs.Runs.{AreKeysOf, IsKeyOf, IsKeyedRunOf, first_lines, max_keys_of};

use crate::bad_keyed_line::BadKeyedLine;
use crate::halt::Halt;
use crate::key_index::KeyIndex;
use crate::key_run::KeyRun;
use crate::one_key::{OneKey, take_line};
use std::alloc::{AllocError as OutOfMemory, Global};
use tilt_keyed_line::{put_with_key, split_key};

/// The runs of the keys of a feed, of which each takes the lines of its key.
#[derive(Drop)]
pub struct KeyedRun<R> {
    // How many keys there may be.
    pub(crate) max_keys: usize,
    // The last line of every key, if there was one.
    pub(crate) shared: Option<Vec<u8>>,
    // The keys, in the order of their first lines.
    pub(crate) keys: Vec<OneKey<R>>,
    // The same keys in the same order.
    pub(crate) places: KeyIndex,
    // Room for what a run writes, and for what is written for a line.
    pub(crate) room: Vec<u8>,
    output: Vec<u8>,
}

impl<R: KeyRun + Drop> KeyedRun<R> {
    /// The runs before the first line. There may be this many keys.
    pub fn new(alloc: Global, max_keys: usize) -> KeyedRun<R>
        ensures is { (recipe : R.Recipe) → IsKeyedRunOf R.is result recipe empty_keyed_feed }
        ensures max { max_keys_of result ≡ max_keys }
    {
        KeyedRun {
            max_keys,
            shared: None,
            keys: Vec::new(alloc),
            places: KeyIndex::new(alloc),
            room: Vec::new(alloc),
            output: Vec::new(alloc),
        }
    }

    /// Takes a line of the feed without its LF, for runs of this recipe, and appends what is written for it. Returns why the line is bad,
    /// if it is: it has no key, and then nothing changes; or it is bad for the run of its key. Of a bad line of every key the first cause
    /// is returned, in the order of the keys, and the output of all runs is appended all the same. `TooManyKeys` comes exactly if the line
    /// has a new key and there are as many as there may be, and then no run has changed. After `OutOfMemory` the runs are over, and take
    /// no line. After an error nothing is written.
    pub fn take(
        &mut self,
        alloc: Global,
        recipe: &R::Recipe,
        line: &[u8],
        out: &mut Vec<u8>,
    ) -> Result<Option<BadKeyedLine<R::Bad>>, Halt>
        requires { (feed : KeyedFeed) × IsKeyedRunOf R.is self.old recipe.now feed }
        ensures is { (feed : KeyedFeed) → IsKeyedRunOf R.is self.old recipe.now feed
            → OnOk result (IsKeyedRunOf R.is self.new recipe.now (after_address (address line.now) feed)) }
        ensures output { (feed : KeyedFeed) → IsKeyedRunOf R.is self.old recipe.now feed
            → OnOk result (out.new.items ≡ out.old.items
            ++ address_output (R.first recipe.now) (R.added recipe.now) (address line.now) feed) }
        ensures bad { (feed : KeyedFeed) → IsKeyedRunOf R.is self.old recipe.now feed
            → IfOk result (λ why. why ≡ address_fault (R.fault recipe.now) (address line.now) feed) }
        ensures full { (feed : KeyedFeed) → IsKeyedRunOf R.is self.old recipe.now feed
            → FullBy result (address_exceeds (max_keys_of self.old) (address line.now) feed) (IsKeyedRunOf R.is self.new recipe.now feed) }
        ensures unwritten { OnErr result (out.new.items ≡ out.old.items) }
        ensures max { max_keys_of self.new ≡ max_keys_of self.old }
    {
        match split_key(line) {
            Err(why) => Ok(Some(BadKeyedLine::NoKey { why })),
            Ok(None) => Ok(None),
            Ok(Some((key, rest))) => {
                self.output.clear();
                let why = self.take_key(alloc, recipe, key, rest)?;
                out.extend_from_slice(&self.output)?;
                Ok(of_key(why))
            }
        }
    }

    // Takes a line with its key taken off, which is empty if the line is one of every key.
    fn take_key(
        &mut self,
        alloc: Global,
        recipe: &R::Recipe,
        key: &[u8],
        line: &[u8],
    ) -> Result<Option<R::Bad>, Halt>
        requires { (feed : KeyedFeed) × IsKeyedRunOf R.is self.old recipe.now feed }
        ensures is { (feed : KeyedFeed) → IsKeyedRunOf R.is self.old recipe.now feed
            → OnOk result (IsKeyedRunOf R.is self.new recipe.now (after_key key.now line.now feed)) }
        ensures output { (feed : KeyedFeed) → IsKeyedRunOf R.is self.old recipe.now feed
            → OnOk result (self.new.output.items ≡ self.old.output.items
            ++ key_output (R.first recipe.now) (R.added recipe.now) key.now line.now feed) }
        ensures bad { (feed : KeyedFeed) → IsKeyedRunOf R.is self.old recipe.now feed
            → IfOk result (λ why. why ≡ key_fault (R.fault recipe.now) key.now line.now feed) }
        ensures full { (feed : KeyedFeed) → IsKeyedRunOf R.is self.old recipe.now feed
            → FullBy result (key_exceeds (max_keys_of self.old) key.now feed.keys) (IsKeyedRunOf R.is self.new recipe.now feed) }
        ensures max { max_keys_of self.new ≡ max_keys_of self.old }
    {
        if key.is_empty() {
            return Ok(self.take_every(alloc, line)?);
        }
        self.take_own(alloc, recipe, key, line)
    }

    // Hands a line to all keys, and keeps it for new ones.
    fn take_every(&mut self, alloc: Global, line: &[u8]) -> Result<Option<R::Bad>, OutOfMemory>
        requires { (recipe : R.Recipe) × (feed : KeyedFeed) × IsKeyedRunOf R.is self.old recipe feed }
        ensures is { (recipe : R.Recipe) (feed : KeyedFeed) → IsKeyedRunOf R.is self.old recipe feed
            → OnOk result (IsKeyedRunOf R.is self.new recipe (after_key [] line.now feed)) }
        ensures output { (recipe : R.Recipe) (feed : KeyedFeed) → IsKeyedRunOf R.is self.old recipe feed
            → OnOk result (self.new.output.items ≡ self.old.output.items
            ++ every_output (R.first recipe) (R.added recipe) line.now feed.keys) }
        ensures bad { (recipe : R.Recipe) (feed : KeyedFeed) → IsKeyedRunOf R.is self.old recipe feed
            → IfOk result (λ why. why ≡ every_fault (R.fault recipe) line.now feed.keys) }
        ensures max { max_keys_of self.new ≡ max_keys_of self.old }
    {
        let kept = Vec::from_slice(alloc, line)?;
        let why = take_all(
            alloc,
            &mut self.keys,
            line,
            &mut self.room,
            &mut self.output,
        )?;
        self.shared = Some(kept);
        Ok(why)
    }

    // Hands a line to a key, which starts with it if it isn't there.
    fn take_own(
        &mut self,
        alloc: Global,
        recipe: &R::Recipe,
        key: &[u8],
        line: &[u8],
    ) -> Result<Option<R::Bad>, Halt>
        requires { (feed : KeyedFeed) × IsKeyedRunOf R.is self.old recipe.now feed }
        ensures is { (feed : KeyedFeed) → IsKeyedRunOf R.is self.old recipe.now feed
            → OnOk result (IsKeyedRunOf R.is self.new recipe.now (record {
              shared = feed.shared;
              keys = after_own key.now feed.shared line.now feed.keys;
            })) }
        ensures output { (feed : KeyedFeed) → IsKeyedRunOf R.is self.old recipe.now feed
            → OnOk result (self.new.output.items ≡ self.old.output.items
            ++ own_output (R.first recipe.now) (R.added recipe.now) key.now feed.shared line.now feed.keys) }
        ensures bad { (feed : KeyedFeed) → IsKeyedRunOf R.is self.old recipe.now feed
            → IfOk result (λ why. why ≡ own_fault (R.fault recipe.now) key.now feed.shared line.now feed.keys) }
        ensures full { (feed : KeyedFeed) → IsKeyedRunOf R.is self.old recipe.now feed
            → FullBy result (not (is_known key.now feed.keys) && nat_le (max_keys_of self.old) (length feed.keys))
            (IsKeyedRunOf R.is self.new recipe.now feed) }
        ensures max { max_keys_of self.new ≡ max_keys_of self.old }
    {
        match self.places.place_of(key) {
            Some(place) => {
                let one = &mut self.keys[place];
                Ok(take_line(alloc, one, line, &mut self.room, &mut self.output)?)
            }
            None => self.add_key(alloc, recipe, key, line),
        }
    }

    // Adds a key that isn't there, with its first line.
    fn add_key(
        &mut self,
        alloc: Global,
        recipe: &R::Recipe,
        key: &[u8],
        line: &[u8],
    ) -> Result<Option<R::Bad>, Halt>
        requires { position (bytes_eq key.now) self.old.places ≡ None }
        ensures is { OnOk result ((one : OneKey R) × (self.new.keys.items ≡ self.old.keys.items ++ one ∷ [])
            × IsKeyOf R.is one recipe.now (record { key = key.now; lines = first_lines self.old.shared ++ line.now ∷ [] })) }
        ensures output { OnOk result (self.new.output.items ≡ self.old.output.items ++ with_key key.now
            (alone (R.first recipe.now) (R.added recipe.now) (first_lines self.old.shared ++ line.now ∷ []))) }
        ensures bad { IfOk result (λ why. why ≡ R.fault recipe.now (first_lines self.old.shared) line.now) }
        ensures full { FullBy result (nat_le (max_keys_of self.old) (length self.old.keys.items))
            ((self.new.keys ≡ self.old.keys) × (self.new.places ≡ self.old.places)) }
        ensures places { OnOk result (self.new.places ≡ self.old.places ++ key.now ∷ []) }
        ensures shared { self.new.shared ≡ self.old.shared }
        ensures max { max_keys_of self.new ≡ max_keys_of self.old }
    {
        if self.max_keys <= self.keys.len() {
            return Err(Halt::TooManyKeys);
        }
        let (one, why) = start_key(alloc, recipe, key, &self.shared, line, &mut self.output)?;
        self.places.push(alloc, key)?;
        push_key(&mut self.keys, one)?;
        Ok(why)
    }
}

// Adds a key behind the others.
pub(crate) fn push_key<R: Drop>(
    keys: &mut Vec<OneKey<R>>,
    one: OneKey<R>,
) -> Result<(), OutOfMemory>
    ensures { OnOk result (keys.new.items ≡ keys.old.items ++ one ∷ []) }
{
    keys.push(one)?;
    Ok(())
}

// That a line is bad for the run of its key, if it is.
fn of_key<B: Copy>(why: Option<B>) -> Option<BadKeyedLine<B>>
    ensures { result ≡ option_map BadKeyedLine.OfKey why }
{
    match why {
        Some(why) => Some(BadKeyedLine::OfKey { why }),
        None => None,
    }
}

// A new key with its run, after the line that was kept for it, if one was, and its own first line. With it comes why its own line is bad,
// if it is. What the run writes is appended, with the key.
fn start_key<R: KeyRun + Drop>(
    alloc: Global,
    recipe: &R::Recipe,
    key: &[u8],
    shared: &Option<Vec<u8>>,
    line: &[u8],
    output: &mut Vec<u8>,
) -> Result<(OneKey<R>, Option<R::Bad>), OutOfMemory>
    ensures is { IfOk result (λ started. IsKeyOf R.is started.0 recipe.now
        (record { key = key.now; lines = first_lines shared.now ++ line.now ∷ [] })) }
    ensures output { OnOk result (output.new.items ≡ output.old.items
        ++ with_key key.now (alone (R.first recipe.now) (R.added recipe.now) (first_lines shared.now ++ line.now ∷ []))) }
    ensures bad { IfOk result (λ started. started.1 ≡ R.fault recipe.now (first_lines shared.now) line.now) }
{
    let mut room = Vec::new(alloc);
    let mut run = R::start(alloc, recipe, &mut room)?;
    take_first(alloc, &mut run, shared, &mut room)?;
    let why = run.take(alloc, line, &mut room)?;
    put_with_key(output, key, &room)?;
    let key = Vec::from_slice(alloc, key)?;
    Ok((OneKey { key, run }, why))
}

// Hands a line to all keys, and appends what their runs write. Returns why the line is bad, if it is, for the first run for which it is.
fn take_all<R: KeyRun>(
    alloc: Global,
    keys: &mut [OneKey<R>],
    line: &[u8],
    room: &mut Vec<u8>,
    output: &mut Vec<u8>,
) -> Result<Option<R::Bad>, OutOfMemory>
    requires { (recipe : R.Recipe) × (feeds : List KeyFeed) × AreKeysOf R.is keys.old recipe feeds }
    ensures is { (recipe : R.Recipe) (feeds : List KeyFeed) → AreKeysOf R.is keys.old recipe feeds
        → OnOk result (AreKeysOf R.is keys.new recipe (map (given line.now) feeds)) }
    ensures output { (recipe : R.Recipe) (feeds : List KeyFeed) → AreKeysOf R.is keys.old recipe feeds
        → OnOk result (output.new.items ≡ output.old.items ++ every_output (R.first recipe) (R.added recipe) line.now feeds) }
    ensures bad { (recipe : R.Recipe) (feeds : List KeyFeed) → AreKeysOf R.is keys.old recipe feeds
        → IfOk result (λ why. why ≡ every_fault (R.fault recipe) line.now feeds) }
{
    let mut first = None;
    for place in 0..keys.len() {
        let why = take_line(alloc, &mut keys[place], line, room, output)?;
        first = first.or(why);
    }
    Ok(first)
}

// A run takes the line that was kept for it, if one was.
fn take_first<R: KeyRun>(
    alloc: Global,
    run: &mut R,
    line: &Option<Vec<u8>>,
    output: &mut Vec<u8>,
) -> Result<(), OutOfMemory>
    requires { (recipe : R.Recipe) × R.is run.old recipe [] }
    ensures is { (recipe : R.Recipe) → R.is run.old recipe [] → OnOk result (R.is run.new recipe (first_lines line.now)) }
    ensures output { (recipe : R.Recipe) → R.is run.old recipe []
        → OnOk result (output.new.items ≡ output.old.items ++ written (R.first recipe) (R.added recipe) [] (first_lines line.now)) }
{
    let Some(line) = line else {
        return Ok(());
    };
    let _why = run.take(alloc, line, output)?;
    Ok(())
}
