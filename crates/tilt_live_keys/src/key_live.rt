// The run of one key.
ghost use Rattle.std.specs.Prelude.{◌≡◌};
ghost use Rattle.tilt_live_keys.specs.Recipe.{key_options};

use crate::copies::compile_again;
use crate::key_recipe::KeyRecipe;
use std::alloc::{AllocError as OutOfMemory, Global};
use std::mem::replace;
use tilt_feed_form::{BadFeedLine, FeedForm};
use tilt_keyed_run::KeyRun;
use tilt_live_run::{BareRun, RunOptions};
use tilt_port::BufferPort;

// The run of a query on the lines of one key.
#[derive(Drop)]
pub(crate) struct KeyLive {
    pub(crate) run: BareRun,
}

impl KeyRun for KeyLive {
    ghost use Rattle.tilt_live_keys.specs.Recipe.{IsKeyLiveOf, key_added, key_fault, key_first};

    type Recipe = KeyRecipe;

    type Bad = BadFeedLine;

    ghost is = { IsKeyLiveOf };

    ghost first = { key_first };

    ghost added = { key_added };

    ghost fault = { key_fault };

    fn start(
        alloc: Global,
        recipe: &KeyRecipe,
        output: &mut Vec<u8>,
    ) -> Result<KeyLive, OutOfMemory> {
        let accepted = compile_again(alloc, &recipe.accepted, recipe.fuse)?;
        let mut port = BufferPort::over(replace(output, Vec::new(alloc)));
        let started = BareRun::start(alloc, accepted, key_options(recipe), &mut port);
        *output = port.into_bytes();
        match started {
            Ok(run) => Ok(KeyLive { run }),
            Err(_) => Err(OutOfMemory),
        }
    }

    fn take(
        &mut self,
        alloc: Global,
        line: &[u8],
        output: &mut Vec<u8>,
    ) -> Result<Option<BadFeedLine>, OutOfMemory> {
        let mut port = BufferPort::over(replace(output, Vec::new(alloc)));
        let taken = self.run.take(line, &mut port);
        *output = port.into_bytes();
        match taken {
            Ok(why) => Ok(why),
            Err(_) => Err(OutOfMemory),
        }
    }
}

// What is asked of the run of a key.
fn key_options(recipe: &KeyRecipe) -> RunOptions
    ensures { result ≡ key_options recipe.now }
{
    RunOptions {
        display: recipe.display,
        strict: false,
        form: FeedForm::Rows {
            options: recipe.options,
        },
    }
}
