// The state of the runs of all keys.
ghost use Rattle.std.specs.Prelude.{◌≡◌, ◌++◌, List, flat_map, map, OnOk};
ghost use Rattle.tilt_keyed_line.specs.Feeds.{KeyFeed, KeyedFeed};
ghost use Rattle.tilt_keyed_run.specs.Runs.{AreKeysOf, IsKeyOf, IsKeyedRunOf, first_lines, max_keys_of};
ghost use Rattle.tilt_keyed_run.specs.States.{key_state, keyed_state, kept_line};
ghost use Rattle.tilt_keyed_state.specs.Spelling.{key_text, opening, spelled};

use crate::kept_run::KeptRun;
use crate::keyed_run::KeyedRun;
use crate::one_key::OneKey;
use std::alloc::{AllocError as OutOfMemory, Global};
use tilt_keyed_state::{put_end, put_key, put_shared};

impl<R: KeptRun + Drop> KeyedRun<R> {
    /// Appends the state of the runs of all keys: the last line of every key, and each key with the state of its run. All runs go on as
    /// before. After an error the runs are over, and take no line.
    pub fn put_state(
        &mut self,
        alloc: Global,
        recipe: &R::Recipe,
        text: &mut Vec<u8>,
    ) -> Result<(), OutOfMemory>
        requires { (feed : KeyedFeed) × IsKeyedRunOf R.is self.old recipe.now feed }
        ensures state { (feed : KeyedFeed) → IsKeyedRunOf R.is self.old recipe.now feed
            → OnOk result (text.new.items ≡ text.old.items ++ spelled (keyed_state (R.state recipe.now) feed)) }
        ensures goes_on { (feed : KeyedFeed) → IsKeyedRunOf R.is self.old recipe.now feed
            → OnOk result (IsKeyedRunOf R.is self.new recipe.now feed) }
        ensures max { max_keys_of self.new ≡ max_keys_of self.old }
    {
        put_line(text, &self.shared)?;
        put_keys(alloc, recipe, &mut self.keys, &mut self.room, text)?;
        put_end(text)
    }
}

// Appends what comes before the keys, with the line that is kept for new ones.
fn put_line(text: &mut Vec<u8>, shared: &Option<Vec<u8>>) -> Result<(), OutOfMemory>
    ensures { OnOk result (text.new.items ≡ text.old.items ++ opening (kept_line (first_lines shared.now))) }
{
    match shared {
        None => put_shared(text, None),
        Some(line) => put_shared(text, Some(line.as_slice())),
    }
}

// Appends each key with the state of its run.
fn put_keys<R: KeptRun>(
    alloc: Global,
    recipe: &R::Recipe,
    keys: &mut [OneKey<R>],
    room: &mut Vec<u8>,
    text: &mut Vec<u8>,
) -> Result<(), OutOfMemory>
    requires { (feeds : List KeyFeed) × AreKeysOf R.is keys.old recipe.now feeds }
    ensures text { (feeds : List KeyFeed) → AreKeysOf R.is keys.old recipe.now feeds
        → OnOk result (text.new.items ≡ text.old.items ++ flat_map key_text (map (key_state (R.state recipe.now)) feeds)) }
    ensures goes_on { (feeds : List KeyFeed) → AreKeysOf R.is keys.old recipe.now feeds
        → OnOk result (AreKeysOf R.is keys.new recipe.now feeds) }
{
    for place in 0..keys.len() {
        put_one(alloc, recipe, &mut keys[place], room, text)?;
    }
    Ok(())
}

// Appends a key with the state of its run. The room is for the state.
fn put_one<R: KeptRun>(
    alloc: Global,
    recipe: &R::Recipe,
    one: &mut OneKey<R>,
    room: &mut Vec<u8>,
    text: &mut Vec<u8>,
) -> Result<(), OutOfMemory>
    requires { (feed : KeyFeed) × IsKeyOf R.is one.old recipe.now feed }
    ensures text { (feed : KeyFeed) → IsKeyOf R.is one.old recipe.now feed
        → OnOk result (text.new.items ≡ text.old.items ++ key_text (key_state (R.state recipe.now) feed)) }
    ensures goes_on { (feed : KeyFeed) → IsKeyOf R.is one.old recipe.now feed
        → OnOk result (IsKeyOf R.is one.new recipe.now feed) }
{
    room.clear();
    one.run.put_state(alloc, recipe, room)?;
    put_key(text, &one.key, room)
}
