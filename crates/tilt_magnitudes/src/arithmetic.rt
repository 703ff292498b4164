// The interval of what an operator or a reducer gives.
ghost use Rattle.std.specs.Prelude.{◌≡◌, ◌<ℤ◌, ◌^◌, ◌+ℤ◌, ◌-ℤ◌, ◌*ℤ◌, ◌≤ℤ◌, pos, neg_ℤ, int_div};
ghost use Rattle.std.specs.Int.{int_max, int_min};
ghost use Rattle.tilt_magnitudes.specs.Interval.{between, counts, difference, interval1, interval2};
ghost use Rattle.tilt_magnitudes.specs.Interval.{interval_reduced, largest_remainder, negated, positive, product};
ghost use Rattle.tilt_magnitudes.specs.Interval.{quotient, quotient_above, quotient_below, remainder, sum};

use crate::interval::{Interval, WideInterval, hull, truths, widen};
use tilt_base::{Op1, Op2, Reducer};

/// What an operator gives on numbers of an interval.
pub(crate) fn interval1(op: Op1, a: Interval) -> WideInterval
    ensures { result ≡ interval1 op a }
{
    match op {
        Op1::Neg => negated(a),
        Op1::Not | Op1::IsNull => truths(),
    }
}

/// What an operator gives on numbers of two intervals.
pub(crate) fn interval2(op: Op2, a: Interval, b: Interval) -> WideInterval
    ensures { result ≡ interval2 op a b }
{
    match op {
        Op2::Add => sum(a, b),
        Op2::Sub => difference(a, b),
        Op2::Mul => product(widen(a), b),
        Op2::Div => quotient(a, b),
        Op2::Rem => remainder(a, b),
        Op2::When => widen(a),
        Op2::IfNull => hull(widen(a), widen(b)),
        _ => truths(),
    }
}

/// What a reducer gives on at most so many numbers of an interval.
pub(crate) fn interval_reduced(reducer: Reducer, most: u64, a: Interval) -> WideInterval
    ensures { result ≡ interval_reduced reducer most a }
{
    match reducer {
        Reducer::Sum => product(counts(most), a),
        Reducer::Count => counts(most),
        Reducer::Any | Reducer::All => truths(),
        _ => widen(a),
    }
}

// The negatives.
fn negated(a: Interval) -> WideInterval
    ensures { result ≡ negated a }
{
    WideInterval {
        low: -i128::from(a.high),
        high: -i128::from(a.low),
    }
}

// The sum of two numbers.
fn plus(m: i64, n: i64) -> i128
    ensures { result ≡ m +ℤ n }
{
    i128::from(m) + i128::from(n)
}

// Their difference.
fn minus(m: i64, n: i64) -> i128
    ensures { result ≡ m -ℤ n }
{
    i128::from(m) - i128::from(n)
}

// The sums.
fn sum(a: Interval, b: Interval) -> WideInterval
    ensures { result ≡ sum a b }
{
    WideInterval {
        low: plus(a.low, b.low),
        high: plus(a.high, b.high),
    }
}

// The differences.
fn difference(a: Interval, b: Interval) -> WideInterval
    ensures { result ≡ difference a b }
{
    WideInterval {
        low: minus(a.low, b.high),
        high: minus(a.high, b.low),
    }
}

// How many numbers there may be.
fn counts(most: u64) -> WideInterval
    ensures { result ≡ counts most }
{
    WideInterval {
        low: 1,
        high: i128::from(most),
    }
}

// The interval between two numbers.
fn between(m: i128, n: i128) -> WideInterval
    ensures { result ≡ between m n }
{
    WideInterval {
        low: m.min(n),
        high: m.max(n),
    }
}

// The products. The factors on the left have up to 64 bits and a sign.
fn product(a: WideInterval, b: Interval) -> WideInterval
    requires low { neg_ℤ (pos (2 ^ 64)) <ℤ a.low }
    requires low_end { a.low <ℤ pos (2 ^ 64) }
    requires high_end { neg_ℤ (pos (2 ^ 64)) <ℤ a.high }
    requires high { a.high <ℤ pos (2 ^ 64) }
    ensures { result ≡ product a b }
{
    hull(
        between(times(a.low, b.low), times(a.low, b.high)),
        between(times(a.high, b.low), times(a.high, b.high)),
    )
}

// The product of two numbers.
fn times(m: i128, n: i64) -> i128
    requires low { neg_ℤ (pos (2 ^ 64)) <ℤ m }
    requires high { m <ℤ pos (2 ^ 64) }
    ensures { result ≡ m *ℤ n }
{
    m * i128::from(n)
}

// The quotients.
fn quotient(a: Interval, b: Interval) -> WideInterval
    ensures { result ≡ quotient a b }
{
    if b.low >= 0 {
        quotient_above(widen(a), widen(b))
    } else if b.high <= 0 {
        quotient_below(a, b)
    } else {
        hull(quotient_above(widen(a), widen(b)), quotient_below(a, b))
    }
}

// The quotients by the positive numbers of an interval.
fn quotient_above(a: WideInterval, b: WideInterval) -> WideInterval
    ensures { result ≡ quotient_above a b }
{
    let b = positive(b);
    hull(
        between(over(a.low, b.low), over(a.low, b.high)),
        between(over(a.high, b.low), over(a.high, b.high)),
    )
}

// The positive numbers, and 1 if there are none.
fn positive(b: WideInterval) -> WideInterval
    ensures value { result ≡ positive b }
    ensures low { pos 1 ≤ℤ result.low }
    ensures high { pos 1 ≤ℤ result.high }
{
    WideInterval {
        low: b.low.max(1),
        high: b.high.max(1),
    }
}

// The quotient of two numbers.
fn over(m: i128, n: i128) -> i128
    requires { pos 1 ≤ℤ n }
    ensures { result ≡ int_div m n }
{
    m / n
}

// The quotients by the negative ones.
fn quotient_below(a: Interval, b: Interval) -> WideInterval
    ensures { result ≡ quotient_below a b }
{
    quotient_above(negated(a), negated(b))
}

// The largest size of a remainder by numbers between two others.
fn largest_remainder(low: i64, high: i64) -> i128
    ensures value { result ≡ largest_remainder (record { low = low; high = high }) }
    ensures low { pos 0 ≤ℤ result }
{
    let size = (-i128::from(low)).max(i128::from(high));
    (size - 1).max(0)
}

// The smallest remainder, of which none has more than a size.
fn smallest_remainder(low: i64, most: i128) -> i128
    requires { pos 0 ≤ℤ most }
    ensures { result ≡ int_max (int_min low (pos 0)) (neg_ℤ most) }
{
    i128::from(low).min(0).max(-most)
}

// The largest remainder, of which none has more than a size.
fn highest_remainder(high: i64, most: i128) -> i128
    ensures { result ≡ int_min (int_max high (pos 0)) most }
{
    i128::from(high).max(0).min(most)
}

// The remainders.
fn remainder(a: Interval, b: Interval) -> WideInterval
    ensures { result ≡ remainder a b }
{
    let most = largest_remainder(b.low, b.high);
    WideInterval {
        low: smallest_remainder(a.low, most),
        high: highest_remainder(a.high, most),
    }
}
