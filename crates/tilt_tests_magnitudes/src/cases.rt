// Queries, the intervals and the rates of their inputs, and what is printed.

/// The ends of the intervals of the inputs, the query, and what is printed of it.
pub type Case = (&'static [(i64, i64)], &'static str, &'static str);

// The ends of 64 bits.
const LEAST: i64 = -9223372036854775808;

const MOST: i64 = 9223372036854775807;

pub const CASES: &[Case] = &[
    // The largest number that one may be added to, and the next one.
    (
        &[(0, 9223372036854775806)],
        "input x; emit x + 1 over (0, 5];",
        "0..9223372036854775806 1..9223372036854775807",
    ),
    (
        &[(0, MOST)],
        "input x; emit x + 1 over (0, 5];",
        "0.0: 1..9223372036854775808",
    ),
    // The least number has no negative.
    (
        &[(-9223372036854775807, 0)],
        "input x; emit -x over (0, 5];",
        "-9223372036854775807..0 0..9223372036854775807",
    ),
    (
        &[(LEAST, 0)],
        "input x; emit -x over (0, 5];",
        "0.0: 0..9223372036854775808",
    ),
    // Nor a quotient by -1. A divisor of 0 gives null.
    (
        &[(LEAST, MOST)],
        "input x; emit x / 2 over (0, 5];",
        "-9223372036854775808..9223372036854775807 -4611686018427387904..4611686018427387903",
    ),
    (
        &[(LEAST, 0), (-1, 1)],
        "input x; input y; emit x / y over (0, 5];",
        "0.0: -9223372036854775808..9223372036854775808",
    ),
    (
        &[(100, 200), (-4, 0)],
        "input x; input y; emit x / y over (0, 5];",
        "100..200 -4..0 -200..-25",
    ),
    (
        &[(-7, 100), (-10, 3)],
        "input x; input y; emit x % y over (0, 5];",
        "-7..100 -10..3 -7..9",
    ),
    // Products have their ends at ends, in any order.
    (
        &[(-3, 2), (-5, 7)],
        "input x; input y; emit x * y over (0, 5];",
        "-3..2 -5..7 -21..15",
    ),
    (
        &[(0, 3037000499)],
        "input x; emit x * x over (0, 5];",
        "0..3037000499 0..9223372030926249001",
    ),
    (
        &[(0, 3037000500)],
        "input x; emit x * x over (0, 5];",
        "0.0: 0..9223372037000250000",
    ),
    // Tests are 0 or 1, and a choice is around both branches.
    (
        &[(-3, 2), (5, 7)],
        "input x; input y; emit if x < y then x else y over (0, 5];",
        "-3..2 5..7 -3..7",
    ),
    (
        &[(-3, 2), (5, 7)],
        "input x; input y; emit ifnull(x when y > 6, 9) over (0, 5];",
        "-3..2 5..7 -3..9",
    ),
    // A sum of at most 10 numbers and at least one; and the other reducers.
    (
        &[(-3, 2)],
        "input x; emit sum(x[t-10:t]) over (0, 5];",
        "-3..2 -30..20",
    ),
    (
        &[(3, 5)],
        "input x; emit sum(x[t-10:t]) over (0, 5];",
        "3..5 3..50",
    ),
    (
        &[(LEAST, MOST)],
        "input x; let a = avg(x[t-10:t]); let n = count(x[t-10:t]); let p = x > 0; emit if any(p[t-10:t]) then n else 20 over (0, 5];",
        "-9223372036854775808..9223372036854775807 -9223372036854775808..9223372036854775807 1..10 0..1 1..20",
    ),
    (
        &[(0, 922337203685477580)],
        "input x; emit sum(x[t-10:t]) over (0, 5];",
        "0..922337203685477580 0..9223372036854775800",
    ),
    (
        &[(0, 922337203685477581)],
        "input x; emit sum(x[t-10:t]) over (0, 5];",
        "0.0: 0..9223372036854775810",
    ),
    // The first node that can overflow is reported: operands come before their operator, and definitions in order.
    (
        &[(0, MOST)],
        "input x; let y = x; emit (y - 1) + (y + 1) * (y + 2) over (0, 5];",
        "1.5: 1..9223372036854775808",
    ),
    (
        &[(0, MOST)],
        "input x; let y = 1 + (x + 1); emit y * y over (0, 5];",
        "0.2: 1..9223372036854775808",
    ),
];

// At most one snapshot starts in any 60 ticks. So in 600 ticks 11 may start, and a window meets 12.
const MINUTES: (u64, u64) = (1, 60);

// Nothing is known.
const ANY: (u64, u64) = (0, 0);

/// The rates of the inputs, and a query.
pub const RATED: &[(&[(u64, u64)], Case)] = &[
    (
        &[MINUTES],
        (
            &[(0, 5)],
            "input x; emit sum(x[t-600:t]) over (0, 5];",
            "0..5 0..60",
        ),
    ),
    // A short window has no more snapshots than ticks.
    (
        &[(1000, 60)],
        (
            &[(0, 5)],
            "input x; emit sum(x[t-7:t]) over (0, 5];",
            "0..5 0..35",
        ),
    ),
    // On a grid one may start after each grid point, however often those of the input do.
    (
        &[ANY],
        (
            &[(0, 5)],
            "input x; let y = x every 60; emit sum(y[t-600:t]) over (0, 5];",
            "0..5 0..5 0..60",
        ),
    ),
    // Snapshots of a sum start with those of either operand, and snapshots of a window at both of its ends.
    (
        &[MINUTES, MINUTES],
        (
            &[(0, 5), (0, 5)],
            "input x; input y; let z = x + y; emit count(z[t-600:t]) over (0, 5];",
            "0..5 0..5 0..10 1..23",
        ),
    ),
    (
        &[MINUTES],
        (
            &[(0, 5)],
            "input x; let m = max(x[t-5:t]); emit count(m[t-600:t]) over (0, 5];",
            "0..5 0..5 1..23",
        ),
    ),
];
