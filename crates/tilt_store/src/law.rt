// What a run with crashes leaves.
ghost use Rattle.std.specs.Prelude.{◌≡◌, ◌≢◌, ◌++◌, ◌∷◌, ℕ, List, Some, Ok, Err};
ghost use Rattle.tilt_store.specs.Commit.{Commit, committed};
ghost use Rattle.tilt_store.specs.Kept.{Kept};
ghost use Rattle.tilt_store.specs.Runs.{Event, ExactlyOnce, ExactlyOnceFromNothing};
ghost use Rattle.tilt_store.specs.Seal.{seal_of, sealed};
ghost use Rattle.tilt_store.specs.declared.open_error.OpenError.TheVariants.{BrokenState};

/// Over all runs of appends, commits and crashes, in any order, a start goes on from what the folder held at first and then exactly the
/// committed pieces. These are the pieces that were appended and then committed before the next crash, each once and in order. The state
/// is the one of the last commit. A commit that returned `Ok` always counts.
pub fn exactly_once()
    ensures runs { (initial : List ℕ) (first : Kept) (events : List Event) → ExactlyOnce initial first events }
    ensures from_nothing { (initial : List ℕ) (events : List Event) → ExactlyOnceFromNothing initial events }
{}

/// This does nothing. Its clauses are a law of the definitions. The state file of each commit is sealed. If the text behind the seal was
/// changed, then the folder holds no commit and is rejected, except if the new text has the same digest.
pub fn spoiled_states_are_rejected()
    ensures sealed { (kept : Kept) (commit : Commit) → committed kept ≡ Ok (Some commit) → (text : List ℕ) × (kept.state ≡ sealed text) }
    ensures spoiled { (output text spoiled : List ℕ) → seal_of spoiled ≢ seal_of text
        → committed (record { output = output; state = seal_of text ++ 10 ∷ spoiled }) ≡ Err BrokenState }
{}
