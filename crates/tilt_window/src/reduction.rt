// What the nine reducers share.
ghost use Rattle.std.specs.Prelude.{◌≡◌, ◌<◌, ℤ, List, [], ◌∷◌, ◌++◌, length};
ghost use Rattle.tilt_base.specs.Reduce.{reduce};
ghost use Rattle.tilt_base.specs.declared.reducer.Reducer.{Reducer};

use tilt_base::Cell;

/// A reducer that is given its numbers one by one. Code that is generic over one knows of it only what is here.
pub trait Reduction {
    /// What is kept of the numbers that were added.
    type State: Drop;

    /// Which reducer it is.
    ghost reducer: { Reducer };

    /// Whether the state holds these numbers, added in this order.
    ghost Holds: { Self.State → List ℤ → Type 0 };

    /// The state of no numbers.
    fn empty() -> Self::State
        ensures { Holds result [] };

    /// Adds one number after the others, of which there are fewer than 2^63 - 1.
    fn add(state: &mut Self::State, number: i64)
        requires few { (ns : List ℤ) × Holds state.old ns × (length ns < 9223372036854775807) }
        ensures { (ns : List ℤ) → length ns < 9223372036854775807 → Holds state.old ns → Holds state.new (ns ++ number ∷ []) };

    /// What the reducer gives on the numbers.
    fn finish(state: &Self::State) -> Cell
        ensures { (ns : List ℤ) → Holds state.now ns → result ≡ reduce reducer ns };
}
