// Queries with the rows of their inputs, the output domain of their watching query, and what that emits.
use tilt_testing::Piece;

/// The query, the rows of its inputs, and the domain and the snapshots of its watching query.
pub type Case = (
    &'static str,
    &'static [&'static [Piece]],
    (i64, i64),
    &'static [Piece],
);

// The ends of 64 bits.
const LEAST: i64 = -9223372036854775808;

const MOST: i64 = 9223372036854775807;

// The end of all times.
const END: i64 = 4_000_000_000_000_000_000;

pub const CASES: &[Case] = &[
    // Each change at which a sum leaves 64 bits counts. Null and one more don't.
    (
        "input x; emit x + 1 over (0, 10];",
        &[&[
            (0, 2, Some(MOST)),
            (2, 4, Some(MOST)),
            (4, 6, Some(9223372036854775806)),
            (8, 10, Some(MOST)),
        ]],
        (0, 10),
        &[(0, 2, Some(1)), (2, 4, Some(1)), (8, 10, Some(1))],
    ),
    (
        "input x; input y; emit x + y over (0, 6];",
        &[
            &[(0, 4, Some(MOST))],
            &[(0, 1, Some(1)), (1, 2, Some(0)), (4, 6, Some(MOST))],
        ],
        (0, 6),
        &[(0, 1, Some(1))],
    ),
    (
        "input x; emit x - 1 over (0, 4];",
        &[&[(0, 2, Some(LEAST)), (2, 4, Some(-9223372036854775807))]],
        (0, 4),
        &[(0, 2, Some(1))],
    ),
    (
        "input x; emit x * x over (0, 4];",
        &[&[(0, 2, Some(3037000499)), (2, 4, Some(3037000500))]],
        (0, 4),
        &[(2, 4, Some(1))],
    ),
    (
        "input x; emit -x over (0, 4];",
        &[&[(0, 2, Some(LEAST)), (2, 4, Some(MOST))]],
        (0, 4),
        &[(0, 2, Some(1))],
    ),
    // A division by 0 is null and leaves nothing; the least number by -1 does, and its remainder is 0.
    (
        "input x; input y; emit x / y over (0, 8];",
        &[
            &[(0, 8, Some(LEAST))],
            &[(0, 2, Some(0)), (2, 4, Some(-1)), (4, 6, Some(1))],
        ],
        (0, 8),
        &[(2, 4, Some(1))],
    ),
    (
        "input x; input y; emit x % y over (0, 4];",
        &[&[(0, 4, Some(LEAST))], &[(0, 2, Some(0)), (2, 4, Some(-1))]],
        (0, 4),
        &[],
    ),
    // A sum over an empty window is null and leaves nothing. At tick 2 the window has both numbers.
    (
        "input x; emit sum(x[t-2:t]) over (0, 10];",
        &[&[(0, 1, Some(MOST)), (1, 2, Some(1)), (6, 7, Some(5))]],
        (-1, 10),
        &[(1, 2, Some(1))],
    ),
    // The exact sum counts, in whatever order its numbers come; and no other reducer leaves 64 bits.
    (
        "input x; emit sum(x[t-3:t]) over (0, 4];",
        &[&[(0, 1, Some(MOST)), (1, 2, Some(1)), (2, 4, Some(-1))]],
        (-2, 4),
        &[(1, 2, Some(1))],
    ),
    (
        "input x; emit avg(x[t-2:t]) + max(x[t-2:t]) / 2 over (0, 2];",
        &[&[(0, 1, Some(MOST)), (1, 2, Some(MOST))]],
        (-1, 2),
        &[(0, 1, Some(1)), (1, 2, Some(1))],
    ),
    (
        "input x; emit avg(x[t-2:t]) over (0, 2];",
        &[&[(0, 1, Some(MOST)), (1, 2, Some(MOST))]],
        (-1, 2),
        &[],
    ),
    // The branch that isn't chosen counts too, and so does a condition.
    (
        "input x; emit if x < 0 then 0 else x - 1 over (0, 4];",
        &[&[(0, 2, Some(LEAST)), (2, 4, Some(7))]],
        (0, 4),
        &[(0, 2, Some(1))],
    ),
    (
        "input x; emit 1 when x + 1 > 0 over (0, 4];",
        &[&[(0, 2, Some(MOST)), (2, 4, Some(7))]],
        (0, 4),
        &[(0, 2, Some(1))],
    ),
    // A definition counts where it is taken: within its span, at its grid points.
    (
        "input x; let a = x + 1 over (2, 4]; emit a over (0, 6];",
        &[&[(0, 6, Some(MOST))]],
        (0, 6),
        &[(2, 4, Some(1))],
    ),
    (
        "input x; let a = x + 1 every 5; emit a over (0, 10];",
        &[&[(0, 4, Some(MOST)), (4, 9, Some(7)), (9, 10, Some(MOST))]],
        (0, 14),
        &[(5, 10, Some(1))],
    ),
    (
        "input x; let a = x + 1 over (3, 6] every 3; emit a over (0, 6];",
        &[&[(0, 5, Some(MOST)), (5, 6, Some(7))]],
        (0, 8),
        &[],
    ),
    // Each definition counts.
    (
        "input x; let a = x + 1; let b = x - 1; emit ifnull(a, b) over (0, 6];",
        &[&[(0, 2, Some(MOST)), (2, 4, Some(7)), (4, 6, Some(LEAST))]],
        (0, 6),
        &[(0, 2, Some(1)), (4, 6, Some(1))],
    ),
    // So does what the output reads before its domain and after it; what it doesn't read doesn't.
    (
        "input x; let a = x + 1; emit a[t-3] over (0, 5];",
        &[&[(-5, -3, Some(MOST)), (-2, -1, Some(MOST))]],
        (-3, 5),
        &[(-2, -1, Some(1))],
    ),
    (
        "input x; let a = x + 1; emit a[t+3] over (0, 5];",
        &[&[(7, 9, Some(MOST))]],
        (0, 8),
        &[(7, 8, Some(1))],
    ),
    // A query without inputs.
    (
        "emit 9223372036854775807 + 1 over (0, 5];",
        &[],
        (0, 5),
        &[(0, 5, Some(1))],
    ),
];

/// Queries, and the domain of their watching query, which ends at the ends of all times.
pub const DOMAINS: &[(&str, (i64, i64))] = &[
    (
        "input x; emit x[t-5] + x[t+5] over (-4000000000000000000, 4000000000000000000];",
        (-END, END),
    ),
    (
        "input x; emit x[t-5] + x[t+7] over (-3999999999999999999, 3999999999999999990];",
        (-END, 3_999_999_999_999_999_997),
    ),
];
