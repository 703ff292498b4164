// The runs that go on from a state.
ghost use Rattle.std.specs.Prelude.{◌≡◌, ◌++◌, ◌∷◌, [], List, map, option_map, IfErr, IfOk, OnOk};
ghost use Rattle.tilt_keyed_line.specs.Feeds.{KeyedFeed};
ghost use Rattle.tilt_keyed_run.specs.Resumed.{IsResumedOf, IsResumedRunOf};
ghost use Rattle.tilt_keyed_run.specs.Runs.{IsKeyedRunOf, max_keys_of};
ghost use Rattle.tilt_keyed_run.specs.States.{RejectsKey, RejectsKeys, RejectsOne, RejectsState, keyed_state, unread};
ghost use Rattle.tilt_keyed_run.specs.declared.keyed_run.KeyedRun as runs;
ghost use Rattle.tilt_keyed_run.specs.declared.one_key.OneKey as ones;
ghost use Rattle.tilt_keyed_state.specs.Spelling.{spelled};

use crate::kept_run::KeptRun;
use crate::keyed_rejection::KeyedRejection;
use crate::keyed_run::{KeyedRun, push_key};
use crate::one_key::OneKey;
use std::alloc::{AllocError as OutOfMemory, Global};
use tilt_keyed_state::{KeyState, KeyedState, KeyedStateFault, read_keyed_state};

impl<R: KeptRun + Drop> KeyedRun<R> {
    /// The runs that go on from the state of the runs of a recipe. They are the runs of which the state is, after the same lines: each
    /// line that they take does what it would have done there. There may be this many keys. Nothing is written.
    pub fn resume(
        alloc: Global,
        recipe: &R::Recipe,
        max_keys: usize,
        text: &[u8],
    ) -> Result<KeyedRun<R>, KeyedRejection<R::Rejection>>
        ensures is { (first : runs.KeyedRun R) (feed : KeyedFeed) → IsKeyedRunOf R.is first recipe.now feed
            → text.now ≡ spelled (keyed_state (R.state recipe.now) feed) → IfOk result (λ run. IsKeyedRunOf R.is run recipe.now feed) }
        ensures max { IfOk result (λ run. max_keys_of run ≡ max_keys) }
        ensures rejected { IfErr result (RejectsState (R.rejects recipe.now) text.now) }
    {
        match read_keyed_state(alloc, text) {
            Ok(state) => resume_state(alloc, recipe, max_keys, &state),
            Err(fault) => Err(unread(fault)),
        }
    }

    // Adds a key, with the run that goes on from its state.
    fn resume_key(
        &mut self,
        alloc: Global,
        recipe: &R::Recipe,
        one: &KeyState<'_>,
    ) -> Result<(), KeyedRejection<R::Rejection>>
        ensures is { OnOk result ((added : ones.OneKey R) × (self.new.keys.items ≡ self.old.keys.items ++ added ∷ [])
            × IsResumedOf R.is (R.state recipe.now) recipe.now added one.now) }
        ensures places { OnOk result (self.new.places ≡ self.old.places ++ one.now.key ∷ []) }
        ensures rejected { IfErr result (RejectsKey (R.rejects recipe.now) self.old.places one.now) }
        ensures shared { self.new.shared ≡ self.old.shared }
        ensures max { max_keys_of self.new ≡ max_keys_of self.old }
    {
        if self.places.place_of(one.key).is_some() {
            return Err(KeyedRejection::RepeatedKey);
        }
        let added = resume_one(alloc, recipe, one)?;
        self.places.push(alloc, one.key)?;
        push_key(&mut self.keys, added)?;
        Ok(())
    }
}

// The runs that go on from these parts of a state.
fn resume_state<R: KeptRun + Drop>(
    alloc: Global,
    recipe: &R::Recipe,
    max_keys: usize,
    state: &KeyedState<'_>,
) -> Result<KeyedRun<R>, KeyedRejection<R::Rejection>>
    ensures is { IfOk result (λ run. IsResumedRunOf R.is (R.state recipe.now) recipe.now run state.now) }
    ensures max { IfOk result (λ run. max_keys_of run ≡ max_keys) }
    ensures rejected { IfErr result (RejectsKeys (R.rejects recipe.now) state.now.keys) }
{
    let mut run = KeyedRun::new(alloc, max_keys);
    run.shared = copy_line(alloc, state.shared)?;
    for one in &state.keys {
        if let Err(why) = run.resume_key(alloc, recipe, one) {
            return Err(why);
        }
    }
    Ok(run)
}

// A key with the run that goes on from its state.
fn resume_one<R: KeptRun + Drop>(
    alloc: Global,
    recipe: &R::Recipe,
    one: &KeyState<'_>,
) -> Result<OneKey<R>, KeyedRejection<R::Rejection>>
    ensures is { IfOk result (λ added. IsResumedOf R.is (R.state recipe.now) recipe.now added one.now) }
    ensures rejected { IfErr result (RejectsOne (R.rejects recipe.now) one.now) }
{
    let run = match R::resume(alloc, recipe, one.state) {
        Ok(run) => run,
        Err(why) => return Err(KeyedRejection::OfKey { why }),
    };
    let key = Vec::from_slice(alloc, one.key)?;
    Ok(OneKey { key, run })
}

// A copy of a line, if there is one.
fn copy_line(alloc: Global, line: Option<&[u8]>) -> Result<Option<Vec<u8>>, OutOfMemory>
    ensures { IfOk result (λ copy. option_map (λ kept. kept.items) copy ≡ option_map (λ bytes. bytes.now) line.entry) }
{
    match line {
        None => Ok(None),
        Some(bytes) => Ok(Some(Vec::from_slice(alloc, bytes)?)),
    }
}

// Why no runs go on from a text of which no state was read.
fn unread<W>(fault: KeyedStateFault) -> KeyedRejection<W>
    ensures { result ≡ unread fault }
{
    match fault {
        KeyedStateFault::OtherFormat => KeyedRejection::OtherFormat,
        KeyedStateFault::Damaged => KeyedRejection::Damaged,
        KeyedStateFault::OutOfMemory => KeyedRejection::OutOfMemory,
    }
}
