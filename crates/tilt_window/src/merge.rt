// The reducers whose states can be joined.
ghost use Rattle.std.specs.Prelude.{◌<◌, ℤ, List, ◌++◌, length};

use crate::reduction::Reduction;

/// A reducer whose states can be joined.
pub trait Merge: Reduction {
    /// The state of the first one's numbers and then the second one's, of which there are fewer than 2^63 together.
    fn merge(a: &Self::State, b: &Self::State) -> Self::State
        requires few { (ms : List ℤ) × (ns : List ℤ) × Self.Holds a.now ms × Self.Holds b.now ns
            × (length (ms ++ ns) < 9223372036854775808) }
        ensures { (ms ns : List ℤ) → length (ms ++ ns) < 9223372036854775808 →
            Self.Holds a.now ms → Self.Holds b.now ns → Self.Holds result (ms ++ ns) };
}
