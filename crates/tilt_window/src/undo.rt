// The reducers that can take a number back.
ghost use Rattle.std.specs.Prelude.{ℤ, List, ◌∷◌};

use crate::reduction::Reduction;

/// A reducer whose first number can be taken back.
pub trait Undo: Reduction {
    /// Takes back the first of the numbers that were added.
    fn remove_first(state: &mut Self::State, number: i64)
        requires held { (ns : List ℤ) × Self.Holds state.old (number ∷ ns) }
        ensures { (ns : List ℤ) → Self.Holds state.old (number ∷ ns) → Self.Holds state.new ns };
}
