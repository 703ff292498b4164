// The sum and the average.
ghost use Rattle.std.specs.Prelude.{◌<◌, ℤ, List, [], ◌∷◌, ◌++◌, length};
ghost use Rattle.tilt_base.specs.declared.reducer.Reducer.TheVariants.{Avg, Sum};
ghost use Rattle.tilt_window.specs.States.{IsSumAndCount};

use crate::merge::Merge;
use crate::reduction::Reduction;
use crate::undo::Undo;
use tilt_base::Cell;

/// What a sum and an average keep. Fewer than 2^63 numbers are added, so that 128 bits hold their sum.
#[derive(Drop)]
pub struct SumAndCount {
    /// Their exact sum.
    pub sum: i128,
    /// How many they are.
    pub count: u64,
}

impl SumAndCount {
    fn empty() -> SumAndCount
        ensures { IsSumAndCount result [] }
    {
        SumAndCount { sum: 0, count: 0 }
    }

    fn add(&mut self, number: i64)
        requires { (ns : List ℤ) × IsSumAndCount self.old ns × (length ns < 9223372036854775807) }
        ensures { (ns : List ℤ) → IsSumAndCount self.old ns → IsSumAndCount self.new (ns ++ number ∷ []) }
    {
        self.sum += i128::from(number);
        self.count += 1;
    }

    fn remove_first(&mut self, number: i64)
        requires { (ns : List ℤ) × IsSumAndCount self.old (number ∷ ns) }
        ensures { (ns : List ℤ) → IsSumAndCount self.old (number ∷ ns) → IsSumAndCount self.new ns }
    {
        self.count -= 1;
        self.sum -= i128::from(number);
    }

    fn merge(&self, other: &SumAndCount) -> SumAndCount
        requires { (ms : List ℤ) × (ns : List ℤ) × IsSumAndCount self.now ms
            × IsSumAndCount other.now ns × (length (ms ++ ns) < 9223372036854775808) }
        ensures { (ms ns : List ℤ) → IsSumAndCount self.now ms → IsSumAndCount other.now ns → IsSumAndCount result (ms ++ ns) }
    {
        SumAndCount {
            sum: self.sum + other.sum,
            count: self.count + other.count,
        }
    }
}

/// The exact sum: null if 64 bits don't hold it.
pub struct SumR;

impl Reduction for SumR {
    type State = SumAndCount;

    ghost reducer = { Sum };

    ghost Holds = { IsSumAndCount };

    fn empty() -> SumAndCount {
        SumAndCount::empty()
    }

    fn add(state: &mut SumAndCount, number: i64) {
        state.add(number);
    }

    fn finish(state: &SumAndCount) -> Cell {
        if state.count == 0 {
            return None;
        }
        i64::try_from(state.sum).ok()
    }
}

impl Undo for SumR {
    fn remove_first(state: &mut SumAndCount, number: i64) {
        state.remove_first(number);
    }
}

impl Merge for SumR {
    fn merge(a: &SumAndCount, b: &SumAndCount) -> SumAndCount {
        a.merge(b)
    }
}

/// The exact sum divided by the number of the numbers, truncated toward zero.
pub struct AvgR;

impl Reduction for AvgR {
    type State = SumAndCount;

    ghost reducer = { Avg };

    ghost Holds = { IsSumAndCount };

    fn empty() -> SumAndCount {
        SumAndCount::empty()
    }

    fn add(state: &mut SumAndCount, number: i64) {
        state.add(number);
    }

    fn finish(state: &SumAndCount) -> Cell {
        if state.count == 0 {
            return None;
        }
        // Mostly 64 bits hold the sum, and are divided in fewer steps.
        match (i64::try_from(state.sum), i64::try_from(state.count)) {
            (Ok(sum), Ok(count)) => Some(sum / count),
            _ => i64::try_from(state.sum / i128::from(state.count)).ok(),
        }
    }
}

impl Undo for AvgR {
    fn remove_first(state: &mut SumAndCount, number: i64) {
        state.remove_first(number);
    }
}

impl Merge for AvgR {
    fn merge(a: &SumAndCount, b: &SumAndCount) -> SumAndCount {
        a.merge(b)
    }
}
