// One key and its run.
ghost use Rattle.std.specs.Prelude.{◌≡◌, ◌++◌, ◌∷◌, [], IfOk, OnOk};
ghost use Rattle.tilt_keyed_line.specs.Feeds.{KeyFeed, given};
ghost use Rattle.tilt_keyed_line.specs.Outputs.{with_key};
ghost use Rattle.tilt_keyed_run.specs.Runs.{IsKeyOf};

use crate::key_run::KeyRun;
use std::alloc::{AllocError as OutOfMemory, Global};
use tilt_keyed_line::put_with_key;

/// A key, and the run over its lines.
#[derive(Drop)]
pub(crate) struct OneKey<R> {
    pub(crate) key: Vec<u8>,
    pub(crate) run: R,
}

// Hands a line to a key, and appends what its run writes, with the key. Returns why the line is bad for the run, if it is. The room is for
// what the run writes.
pub(crate) fn take_line<R: KeyRun>(
    alloc: Global,
    one: &mut OneKey<R>,
    line: &[u8],
    room: &mut Vec<u8>,
    output: &mut Vec<u8>,
) -> Result<Option<R::Bad>, OutOfMemory>
    requires { (recipe : R.Recipe) × (feed : KeyFeed) × IsKeyOf R.is one.old recipe feed }
    ensures is { (recipe : R.Recipe) (feed : KeyFeed) → IsKeyOf R.is one.old recipe feed
        → OnOk result (IsKeyOf R.is one.new recipe (given line.now feed)) }
    ensures output { (recipe : R.Recipe) (feed : KeyFeed) → IsKeyOf R.is one.old recipe feed
        → OnOk result (output.new.items ≡ output.old.items ++ with_key feed.key (R.added recipe feed.lines line.now)) }
    ensures bad { (recipe : R.Recipe) (feed : KeyFeed) → IsKeyOf R.is one.old recipe feed
        → IfOk result (λ why. why ≡ R.fault recipe feed.lines line.now) }
{
    room.clear();
    let why = one.run.take(alloc, line, room)?;
    put_with_key(output, &one.key, room)?;
    Ok(why)
}
