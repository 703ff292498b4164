// The reducers on a list of numbers.
ghost use Rattle.std.specs.Prelude.{◌≡◌, ◌*◌, ◌<◌, ◌≤ℤ◌, fold, int_div, length, neg_ℤ, pos};
ghost use Rattle.std.specs.Int.{int_max, int_min};
ghost use Rattle.std.specs.List.{list_all, list_any};
ghost use Rattle.tilt_base.specs.Reduce.{reduce, reducer_with, reducer_word, total};
ghost use Rattle.tilt_base.specs.Scalar.{is_true};

use crate::cell::Cell;
use crate::scalar::truth;

/// What a window's list of numbers is reduced to. Each reducer is null on the empty list.
#[derive(Clone, Copy, Debug, PartialEq, Eq)]
pub enum Reducer {
    /// The exact sum: null if 64 bits don't hold it.
    Sum,
    /// The exact sum divided by the length, truncated toward zero.
    Avg,
    Min,
    Max,
    /// The length.
    Count,
    First,
    Last,
    /// 1 if a member is true, else 0.
    Any,
    /// 1 if every member is true, else 0.
    All,
}

/// Each reducer.
pub const REDUCERS: [Reducer; 9] = [
    Reducer::Sum,
    Reducer::Avg,
    Reducer::Min,
    Reducer::Max,
    Reducer::Count,
    Reducer::First,
    Reducer::Last,
    Reducer::Any,
    Reducer::All,
];

impl Reducer {
    /// The word of the reducer, in queries and in listings.
    pub fn word(self) -> &'static [u8]
        ensures { result.now ≡ reducer_word self }
    {
        match self {
            Reducer::Sum => b"sum",
            Reducer::Avg => b"avg",
            Reducer::Min => b"min",
            Reducer::Max => b"max",
            Reducer::Count => b"count",
            Reducer::First => b"first",
            Reducer::Last => b"last",
            Reducer::Any => b"any",
            Reducer::All => b"all",
        }
    }

    /// The reducer with this word, or `None` if there is none.
    pub fn read(word: &[u8]) -> Option<Reducer>
        ensures { result ≡ reducer_with word.now }
    {
        REDUCERS
            .iter()
            .copied()
            .find(|reducer| reducer.word() == word)
    }
}

/// What the reducer gives on the numbers, in one pass over them.
pub fn reduce(reducer: Reducer, numbers: &[i64]) -> Cell
    ensures { result ≡ reduce reducer numbers.now }
{
    let (first, rest) = numbers.split_first()?;
    match reducer {
        Reducer::Sum => i64::try_from(total(numbers)).ok(),
        Reducer::Avg => Some(average(numbers)),
        Reducer::Min => Some(least(*first, rest)),
        Reducer::Max => Some(greatest(*first, rest)),
        Reducer::Count => Some(numbers.len() as i64),
        Reducer::First => Some(*first),
        Reducer::Last => numbers.last().copied(),
        Reducer::Any => truth(any_true(numbers)),
        Reducer::All => truth(all_true(numbers)),
    }
}

// The exact sum. It has fewer than 2^60 terms, so that 128 bits hold it.
fn total(numbers: &[i64]) -> i128
    ensures value { result ≡ total numbers.now }
    ensures low { neg_ℤ (pos (9223372036854775808 * length numbers.now)) ≤ℤ result }
    ensures high { result ≤ℤ pos (9223372036854775807 * length numbers.now) }
{
    let mut sum = 0;
    for n in numbers {
        sum += i128::from(*n);
    }
    sum
}

// The exact sum divided by the length, truncated toward zero. It lies between the smallest and the largest number, so
// that 64 bits hold it.
fn average(numbers: &[i64]) -> i64
    requires { 0 < length numbers.now }
    ensures { result ≡ int_div (total numbers.now) (pos (length numbers.now)) }
{
    (total(numbers) / numbers.len() as i128) as i64
}

// The least of the first number and the others.
fn least(first: i64, rest: &[i64]) -> i64
    ensures { result ≡ fold int_min first rest.now }
{
    let mut best = first;
    for n in rest {
        best = best.min(*n);
    }
    best
}

// The largest of the first number and the others.
fn greatest(first: i64, rest: &[i64]) -> i64
    ensures { result ≡ fold int_max first rest.now }
{
    let mut best = first;
    for n in rest {
        best = best.max(*n);
    }
    best
}

// Whether one of the numbers is true.
fn any_true(numbers: &[i64]) -> bool
    ensures { result ≡ list_any is_true numbers.now }
{
    numbers.iter().any(|n| *n != 0)
}

// Whether all of the numbers are true.
fn all_true(numbers: &[i64]) -> bool
    ensures { result ≡ list_all is_true numbers.now }
{
    numbers.iter().all(|n| *n != 0)
}
