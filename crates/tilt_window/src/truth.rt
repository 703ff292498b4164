// Whether one of the numbers is true, and whether each is. Any number but 0 is true.
ghost use Rattle.std.specs.Prelude.{◌<◌, ℤ, List, [], ◌∷◌, ◌++◌, length};
ghost use Rattle.tilt_base.specs.declared.reducer.Reducer.TheVariants.{All, Any};
ghost use Rattle.tilt_window.specs.States.{IsTrueCount};

use crate::merge::Merge;
use crate::reduction::Reduction;
use crate::undo::Undo;
use tilt_base::Cell;

/// What both keep of the numbers.
#[derive(Drop)]
pub struct TrueCount {
    /// How many of them are true.
    pub true_ones: u64,
    /// How many they are.
    pub count: u64,
}

impl TrueCount {
    fn empty() -> TrueCount
        ensures { IsTrueCount result [] }
    {
        TrueCount {
            true_ones: 0,
            count: 0,
        }
    }

    fn add(&mut self, number: i64)
        requires { (ns : List ℤ) × IsTrueCount self.old ns × (length ns < 9223372036854775807) }
        ensures { (ns : List ℤ) → IsTrueCount self.old ns → IsTrueCount self.new (ns ++ number ∷ []) }
    {
        self.true_ones += u64::from(number != 0);
        self.count += 1;
    }

    fn remove_first(&mut self, number: i64)
        requires { (ns : List ℤ) × IsTrueCount self.old (number ∷ ns) }
        ensures { (ns : List ℤ) → IsTrueCount self.old (number ∷ ns) → IsTrueCount self.new ns }
    {
        self.true_ones -= u64::from(number != 0);
        self.count -= 1;
    }

    fn merge(&self, other: &TrueCount) -> TrueCount
        requires { (ms : List ℤ) × (ns : List ℤ) × IsTrueCount self.now ms
            × IsTrueCount other.now ns × (length (ms ++ ns) < 9223372036854775808) }
        ensures { (ms ns : List ℤ) → IsTrueCount self.now ms → IsTrueCount other.now ns → IsTrueCount result (ms ++ ns) }
    {
        TrueCount {
            true_ones: self.true_ones + other.true_ones,
            count: self.count + other.count,
        }
    }
}

/// 1 if a number is true, else 0.
pub struct AnyR;

impl Reduction for AnyR {
    type State = TrueCount;

    ghost reducer = { Any };

    ghost Holds = { IsTrueCount };

    fn empty() -> TrueCount {
        TrueCount::empty()
    }

    fn add(state: &mut TrueCount, number: i64) {
        state.add(number);
    }

    fn finish(state: &TrueCount) -> Cell {
        if state.count == 0 {
            return None;
        }
        Some(i64::from(state.true_ones != 0))
    }
}

impl Undo for AnyR {
    fn remove_first(state: &mut TrueCount, number: i64) {
        state.remove_first(number);
    }
}

impl Merge for AnyR {
    fn merge(a: &TrueCount, b: &TrueCount) -> TrueCount {
        a.merge(b)
    }
}

/// 1 if every number is true, else 0.
pub struct AllR;

impl Reduction for AllR {
    type State = TrueCount;

    ghost reducer = { All };

    ghost Holds = { IsTrueCount };

    fn empty() -> TrueCount {
        TrueCount::empty()
    }

    fn add(state: &mut TrueCount, number: i64) {
        state.add(number);
    }

    fn finish(state: &TrueCount) -> Cell {
        if state.count == 0 {
            return None;
        }
        Some(i64::from(state.true_ones == state.count))
    }
}

impl Undo for AllR {
    fn remove_first(state: &mut TrueCount, number: i64) {
        state.remove_first(number);
    }
}

impl Merge for AllR {
    fn merge(a: &TrueCount, b: &TrueCount) -> TrueCount {
        a.merge(b)
    }
}
