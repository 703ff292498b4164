// Numbers, the scalar operators, the reducers and the grids.
use crate::table::assert_same;
use std::process::Abort;
use std::test::Fail;
use tilt_base::{
    Cell, FILE, Grid, OFFSET, Op1, Op2, PERIOD, REACH, Reducer, T, WIDE, apply1, apply2, choose,
    read_number, read_shortest, reduce,
};

#[test]
fn limits_are_these(rt: HostRuntime) {
    let limits = [T, WIDE, REACH, PERIOD, OFFSET];
    let want = [
        4_000_000_000_000_000_000,
        4_500_000_000_000_000_000,
        1_000_000_000_000,
        1_000_000_000_001,
        2_000_000_000_000,
    ];
    assert_eq!(rt; limits, want);
    assert_eq!(rt; FILE, 1_073_741_824);
}

const NUMBERS: &[(&[u8], Cell)] = &[
    (b"7", Some(7)),
    (b"+0", Some(0)),
    (b"-0", Some(0)),
    (b"005", Some(5)),
    (b"-9223372036854775808", Some(i64::MIN)),
    (b"-9223372036854775809", None),
    (b"9223372036854775807", Some(i64::MAX)),
    (b"9223372036854775808", None),
    (b"", None),
    (b"+", None),
    (b"-", None),
    (b"1x", None),
    (b" 1", None),
    (b"--1", None),
    (b"18446744073709551616", None),
    (b"-0000000000000000000001", Some(-1)),
    (b"\xFF", None),
];

#[test]
fn reads_a_sign_and_digits_within_64_bits(rt: HostRuntime) {
    for (text, want) in NUMBERS {
        assert_same(&rt, &read_number(text), want, text);
    }
}

const SHORTEST: &[(&[u8], Cell)] = &[
    (b"0", Some(0)),
    (b"7", Some(7)),
    (b"-7", Some(-7)),
    (b"007", None),
    (b"+7", None),
    (b"-0", None),
    (b"-9223372036854775808", Some(i64::MIN)),
    (b"9223372036854775808", None),
    (b"", None),
];

#[test]
fn reads_only_the_shortest_spelling(rt: HostRuntime) {
    for (text, want) in SHORTEST {
        assert_same(&rt, &read_shortest(text), want, text);
    }
}

const MIN: i64 = i64::MIN;

const MAX: i64 = i64::MAX;

const ON_ONE: &[(Op1, Cell, Cell)] = &[
    (Op1::Neg, None, None),
    (Op1::Neg, Some(5), Some(-5)),
    (Op1::Neg, Some(MAX), Some(-9_223_372_036_854_775_807)),
    (Op1::Neg, Some(MIN), None),
    (Op1::Not, None, None),
    (Op1::Not, Some(0), Some(1)),
    (Op1::Not, Some(-3), Some(0)),
    (Op1::IsNull, None, Some(1)),
    (Op1::IsNull, Some(0), Some(0)),
];

#[test]
fn operators_on_one_cell(rt: HostRuntime) {
    for (op, a, want) in ON_ONE {
        assert_same(&rt, &apply1(*op, *a), want, &(*op, *a));
    }
}

// Ends the test unless the operator gives this on two cells.
fn assert_two(rt: &impl Abort, op: Op2, a: Cell, b: Cell, want: Cell) {
    assert_eq!(rt; apply2(op, a, b), want, "at {op:?} {a:?} {b:?}");
}

const ARITHMETIC: &[(Op2, i64, i64, Cell)] = &[
    (Op2::Add, MAX, 1, None),
    (Op2::Add, MIN, MAX, Some(-1)),
    (Op2::Sub, MIN, 1, None),
    (Op2::Sub, -1, MIN, Some(MAX)),
    (Op2::Mul, MIN, -1, None),
    (Op2::Mul, 4_611_686_018_427_387_904, -2, Some(MIN)),
    (Op2::Div, -7, 2, Some(-3)),
    (Op2::Div, 7, -2, Some(-3)),
    (Op2::Div, 7, 0, None),
    (Op2::Div, MIN, -1, None),
    (Op2::Div, MAX, -1, Some(-9_223_372_036_854_775_807)),
    (Op2::Rem, -7, 2, Some(-1)),
    (Op2::Rem, 7, -2, Some(1)),
    (Op2::Rem, 7, 0, None),
    (Op2::Rem, MIN, -1, Some(0)),
    (Op2::Rem, 7, -1, Some(0)),
];

#[test]
fn arithmetic_on_two_numbers(rt: HostRuntime) {
    for (op, a, b, want) in ARITHMETIC {
        assert_two(&rt, *op, Some(*a), Some(*b), *want);
    }
}

// What each gives on a lesser number and a greater one, on equal ones, and on a greater and a lesser.
const COMPARED: &[(Op2, i64, i64, i64)] = &[
    (Op2::Eq, 0, 1, 0),
    (Op2::Ne, 1, 0, 1),
    (Op2::Lt, 1, 0, 0),
    (Op2::Le, 1, 1, 0),
    (Op2::Gt, 0, 0, 1),
    (Op2::Ge, 0, 1, 1),
];

// Two numbers, and what `And` and `Or` give on them.
const TRUTHS: &[(i64, i64, i64, i64)] = &[(0, 0, 0, 0), (0, -2, 0, 1), (5, 0, 0, 1), (5, -2, 1, 1)];

#[test]
fn comparisons_and_truth_on_two_numbers(rt: HostRuntime) {
    for (op, less, same, more) in COMPARED {
        assert_two(&rt, *op, Some(MIN), Some(MAX), Some(*less));
        assert_two(&rt, *op, Some(-3), Some(-3), Some(*same));
        assert_two(&rt, *op, Some(0), Some(-1), Some(*more));
    }
    for (a, b, and, or) in TRUTHS {
        assert_two(&rt, Op2::And, Some(*a), Some(*b), Some(*and));
        assert_two(&rt, Op2::Or, Some(*a), Some(*b), Some(*or));
    }
}

// Each operator but `IfNull`.
const OF_NUMBERS: &[Op2] = &[
    Op2::Add,
    Op2::Sub,
    Op2::Mul,
    Op2::Div,
    Op2::Rem,
    Op2::Eq,
    Op2::Ne,
    Op2::Lt,
    Op2::Le,
    Op2::Gt,
    Op2::Ge,
    Op2::And,
    Op2::Or,
    Op2::When,
];

const ON_CELLS: &[(Op2, Cell, Cell, Cell)] = &[
    (Op2::When, Some(8), Some(-1), Some(8)),
    (Op2::When, Some(8), Some(0), None),
    (Op2::IfNull, Some(0), Some(8), Some(0)),
    (Op2::IfNull, Some(0), None, Some(0)),
    (Op2::IfNull, None, Some(8), Some(8)),
    (Op2::IfNull, None, None, None),
];

#[test]
fn null_operands_give_null_but_to_if_null(rt: HostRuntime) {
    for op in OF_NUMBERS {
        assert_two(&rt, *op, None, Some(1), None);
        assert_two(&rt, *op, Some(1), None, None);
        assert_two(&rt, *op, None, None, None);
    }
    for (op, a, b, want) in ON_CELLS {
        assert_two(&rt, *op, *a, *b, *want);
    }
}

const CHOICES: &[(Cell, Cell, Cell, Cell)] = &[
    (None, Some(1), Some(2), None),
    (Some(-4), Some(1), None, Some(1)),
    (Some(0), None, Some(2), Some(2)),
    (Some(1), None, Some(2), None),
    (Some(0), Some(1), None, None),
];

#[test]
fn the_branch_that_is_not_chosen_may_be_null(rt: HostRuntime) {
    for (c, a, b, want) in CHOICES {
        assert_same(&rt, &choose(*c, *a, *b), want, &[*c, *a, *b]);
    }
}

// Ends the test unless the reducer gives this on the numbers.
fn assert_reduced(rt: &impl Abort, reducer: Reducer, numbers: &[i64], want: Cell) {
    assert_eq!(rt;
        reduce(reducer, numbers),
        want,
        "at {reducer:?} {numbers:?}"
    );
}

const SEVERAL: &[i64] = &[-9, 3, 0, -5];

const ZEROS: &[i64] = &[0, 0];

// What each gives on several numbers, and on zeros.
const REDUCERS: &[(Reducer, i64, i64)] = &[
    (Reducer::Sum, -11, 0),
    (Reducer::Avg, -2, 0),
    (Reducer::Min, -9, 0),
    (Reducer::Max, 3, 0),
    (Reducer::Count, 4, 2),
    (Reducer::First, -9, 0),
    (Reducer::Last, -5, 0),
    (Reducer::Any, 1, 0),
    (Reducer::All, 0, 0),
];

#[test]
fn each_reducer_has_its_own_answer(rt: HostRuntime) {
    for (reducer, several, zeros) in REDUCERS {
        assert_reduced(&rt, *reducer, SEVERAL, Some(*several));
        assert_reduced(&rt, *reducer, ZEROS, Some(*zeros));
        assert_reduced(&rt, *reducer, &[], None);
    }
    assert_reduced(&rt, Reducer::All, &[2, -1], Some(1));
    assert_reduced(&rt, Reducer::Any, &[0, 0, 7], Some(1));
}

// Two numbers, their sum and their average.
const SUMS: &[(&[i64], Cell, Cell)] = &[
    (&[MAX, 1], None, Some(4_611_686_018_427_387_904)),
    (&[MAX, MAX], None, Some(MAX)),
    (&[MIN, -1], None, Some(-4_611_686_018_427_387_904)),
    (&[MIN, MIN], None, Some(MIN)),
    (&[MIN, MAX], Some(-1), Some(0)),
    (&[-1, -2], Some(-3), Some(-1)),
    (&[1, 2], Some(3), Some(1)),
];

#[test]
fn sums_may_pass_64_bits_and_averages_are_truncated(rt: HostRuntime) {
    for (numbers, sum, average) in SUMS {
        assert_reduced(&rt, Reducer::Sum, numbers, *sum);
        assert_reduced(&rt, Reducer::Avg, numbers, *average);
    }
    assert_reduced(&rt, Reducer::Sum, &[MAX, 1, -1], Some(MAX));
}

// A period, an offset, and whether they make a grid.
const GRIDS: &[(i64, i64, bool)] = &[
    (1, 0, true),
    (5, 4, true),
    (PERIOD, PERIOD - 1, true),
    (0, 0, false),
    (-1, 0, false),
    (PERIOD + 1, 0, false),
    (5, 5, false),
    (5, -1, false),
];

#[test]
fn a_grid_has_its_bounds(rt: HostRuntime) {
    for (period, offset, is_grid) in GRIDS {
        let found = match Grid::new(*period, *offset) {
            Some(grid) => (grid.period, grid.offset, true),
            None => (*period, *offset, false),
        };
        assert_same(&rt, &found, &(*period, *offset, *is_grid), offset);
    }
}

// Ends the test unless these are the points above and below each tick.
fn assert_nearest(rt: &impl Abort, grid: &Grid, points: &[(i32, i64, i64)]) {
    for (tick, above, below) in points {
        let tick = i64::from(*tick);
        let found = (grid.ceil(tick), grid.floor(tick));
        assert_same(rt, &found, &(*above, *below), &tick);
    }
}

// Ticks, and the points of the grid of 5 from 0.
const FIVES: &[(i32, i64, i64)] = &[(-7, -5, -10), (-5, -5, -5), (0, 0, 0), (1, 5, 0), (5, 5, 5)];

// Ticks, and the points of the grid of 2 from 1.
const ODDS: &[(i32, i64, i64)] = &[(-2, -1, -3), (-1, -1, -1), (0, 1, -1), (1, 1, 1), (2, 3, 1)];

#[test]
fn the_nearest_points_lie_around_a_tick(rt: HostRuntime) -> Result<(), Fail> {
    assert_nearest(&rt, &Grid::new(5, 0).ok_or("no grid")?, FIVES);
    assert_nearest(&rt, &Grid::new(2, 1).ok_or("no grid")?, ODDS);
    Ok(())
}
