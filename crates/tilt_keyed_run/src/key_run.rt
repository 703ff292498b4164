// What is run for each key.
ghost use Rattle.std.specs.Prelude.{◌≡◌, ◌++◌, ◌∷◌, ℕ, List, [], Option, IfOk, OnOk};

use std::alloc::{AllocError as OutOfMemory, Global};

/// A run over the lines of one key's own feed. Code that is generic over it knows only this of it.
pub trait KeyRun {
    /// What a run is made from, such as a query and its options.
    type Recipe;

    /// Why a line is bad. Bad lines don't end a run.
    type Bad: Copy;

    /// Whether it is the run of a recipe after these lines.
    ghost is: { Self → Self.Recipe → List (List ℕ) → Type 0 };

    /// What it writes before its first line.
    ghost first: { Self.Recipe → List ℕ };

    /// What it writes for a line after these lines.
    ghost added: { Self.Recipe → List (List ℕ) → List ℕ → List ℕ };

    /// Why a line after these lines is bad, if it is.
    ghost fault: { Self.Recipe → List (List ℕ) → List ℕ → Option Self.Bad };

    /// The run before its first line. It appends what it writes by then.
    fn start(
        alloc: Global,
        recipe: &Self::Recipe,
        output: &mut Vec<u8>,
    ) -> Result<Self, OutOfMemory>
        ensures is { IfOk result (λ run. is run recipe.now []) }
        ensures output { OnOk result (output.new.items ≡ output.old.items ++ first recipe.now) };

    /// Takes a line without its LF, and appends what it writes for it. Returns why the line is bad, if it is. After an error the run is
    /// over, and takes no line.
    fn take(
        &mut self,
        alloc: Global,
        line: &[u8],
        output: &mut Vec<u8>,
    ) -> Result<Option<Self::Bad>, OutOfMemory>
        requires { (recipe : Self.Recipe) × (lines : List (List ℕ)) × is self.old recipe lines }
        ensures is { (recipe : Self.Recipe) (lines : List (List ℕ)) → is self.old recipe lines
            → OnOk result (is self.new recipe (lines ++ line.now ∷ [])) }
        ensures output { (recipe : Self.Recipe) (lines : List (List ℕ)) → is self.old recipe lines
            → OnOk result (output.new.items ≡ output.old.items ++ added recipe lines line.now) }
        ensures bad { (recipe : Self.Recipe) (lines : List (List ℕ)) → is self.old recipe lines
            → IfOk result (λ why. why ≡ fault recipe lines line.now) };
}
