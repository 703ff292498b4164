// What is run for each key, if its state can be kept.
ghost use Rattle.std.specs.Prelude.{◌≡◌, ◌++◌, ℕ, List, IfErr, IfOk, OnOk};

use crate::key_run::KeyRun;
use std::alloc::{AllocError as OutOfMemory, Global};

/// A run over the lines of one key's own feed that can write its state, and that can be resumed from it.
pub trait KeptRun: KeyRun {
    /// Why a run can't go on from a text.
    type Rejection: Copy;

    /// The text of the state of the run of a recipe after these lines.
    ghost state: { Self.Recipe → List (List ℕ) → List ℕ };

    /// Why a run of a recipe can't go on from a text.
    ghost rejects: { Self.Recipe → List ℕ → Self.Rejection → Type 0 };

    /// Appends its state, and goes on as before. After an error the run is over.
    fn put_state(
        &mut self,
        alloc: Global,
        recipe: &Self::Recipe,
        text: &mut Vec<u8>,
    ) -> Result<(), OutOfMemory>
        requires { (lines : List (List ℕ)) × Self.is self.old recipe.now lines }
        ensures state { (lines : List (List ℕ)) → Self.is self.old recipe.now lines
            → OnOk result (text.new.items ≡ text.old.items ++ state recipe.now lines) }
        ensures goes_on { (lines : List (List ℕ)) → Self.is self.old recipe.now lines
            → OnOk result (Self.is self.new recipe.now lines) };

    /// The run that goes on from a state. It is the run of which the state is, after the lines that this had taken, and it writes nothing.
    fn resume(alloc: Global, recipe: &Self::Recipe, text: &[u8]) -> Result<Self, Self::Rejection>
        ensures is { (lines : List (List ℕ)) → text.now ≡ state recipe.now lines → IfOk result (λ run. Self.is run recipe.now lines) }
        ensures rejected { IfErr result (λ why. rejects recipe.now text.now why) };
}
