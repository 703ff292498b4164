// The laws of the reducers.
ghost use Rattle.std.specs.Prelude.{◌≡◌, ◌≤ℤ◌, ℕ, ℤ, pos, List, Option, Some};
ghost use Rattle.std.specs.List.{AllZip};
ghost use Rattle.tilt_base.specs.Reduce.{numbers, reduce};
ghost use Rattle.tilt_base.specs.declared.reducer.Reducer.{Reducer};
ghost use Rattle.tilt_base.specs.declared.reducer.Reducer.TheVariants.{All, Any, Avg, Count, First, Last, Max, Min, Sum};
ghost use Rattle.tilt_fractions.specs.Exact.{CellStandsFor};
ghost use Rattle.tilt_fractions.specs.ExactReduce.{ReducerStands, fractions, wide_reduce};
ghost use Rattle.tilt_fractions.specs.Fraction.{Fraction, StandsFor};

/// This does nothing. Its clauses are the laws of the reducers, on whole numbers that represent fractions at a scale. Each gives a number
/// that represents what it gives on the fractions, null for null. They hold of sums of any size.
pub fn reducers_keep_what_numbers_stand_for()
    ensures sum { (s : ℕ) → ReducerStands Sum s s }
    // The exact average, truncated toward zero at the scale of the numbers.
    ensures average { (s : ℕ) → pos 1 ≤ℤ pos s → ReducerStands Avg s s }
    ensures min { (s : ℕ) → pos 1 ≤ℤ pos s → ReducerStands Min s s }
    ensures max { (s : ℕ) → pos 1 ≤ℤ pos s → ReducerStands Max s s }
    ensures first { (s : ℕ) → ReducerStands First s s }
    ensures last { (s : ℕ) → ReducerStands Last s s }
    // A count is in whole numbers, whatever is counted.
    ensures count { (s : ℕ) → ReducerStands Count s 1 }
    ensures any { (s : ℕ) → pos 1 ≤ℤ pos s → ReducerStands Any s 1 }
    ensures all { (s : ℕ) → pos 1 ≤ℤ pos s → ReducerStands All s 1 }
    // Null cells are left out of both lists.
    ensures cells { (s : ℕ) (cells : List (Option ℤ)) (exact : List (Option Fraction)) → AllZip (CellStandsFor s) cells exact
        → AllZip (StandsFor s) (numbers cells) (fractions exact) }
    // What doesn't leave 64 bits is what sums of any size give.
    ensures within { (reducer : Reducer) (ns : List ℤ) (n : ℤ) → reduce reducer ns ≡ Some n → wide_reduce reducer ns ≡ Some n }
{}
