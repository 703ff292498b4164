// What the nine reducers answer on some lists.
ghost use Rattle.std.specs.Prelude.{◌≡◌, ◌<◌, length};
ghost use Rattle.tilt_base.specs.Reduce.{reduce};

use tilt_base::Cell;
use tilt_window::{AllR, AnyR, AvgR, CountR, FirstR, LastR, MaxR, MinR, Reduction, SumR};

// What the reducer answers once these numbers were added, through the trait alone.
fn answer<R: Reduction>(numbers: &[i64]) -> Cell
    requires { length numbers.now < 9223372036854775807 }
    ensures { result ≡ reduce R.reducer numbers.now }
{
    let mut state = R::empty();
    for number in numbers {
        R::add(&mut state, *number);
    }
    R::finish(&state)
}

// Stands for null in the table: no answer here is that number.
const NULL: i64 = -99;

// The nine answers: sum, average, least, greatest, count, first, last, any, all.
fn answers(numbers: &[i64]) -> [i64; 9] {
    [
        answer::<SumR>(numbers).unwrap_or(NULL),
        answer::<AvgR>(numbers).unwrap_or(NULL),
        answer::<MinR>(numbers).unwrap_or(NULL),
        answer::<MaxR>(numbers).unwrap_or(NULL),
        answer::<CountR>(numbers).unwrap_or(NULL),
        answer::<FirstR>(numbers).unwrap_or(NULL),
        answer::<LastR>(numbers).unwrap_or(NULL),
        answer::<AnyR>(numbers).unwrap_or(NULL),
        answer::<AllR>(numbers).unwrap_or(NULL),
    ]
}

const ANSWERS: &[(&[i64], [i64; 9])] = &[
    (&[], [NULL; 9]),
    (&[7], [7, 7, 7, 7, 1, 7, 7, 1, 1]),
    (&[0, 0], [0, 0, 0, 0, 2, 0, 0, 0, 0]),
    (&[0, 0, 7], [7, 2, 0, 7, 3, 0, 7, 1, 0]),
    (&[-1, -2], [-3, -1, -2, -1, 2, -1, -2, 1, 1]),
    (&[-9, 3, 0, -5], [-11, -2, -9, 3, 4, -9, -5, 1, 0]),
    (
        &[i64::MAX, 1, -1],
        [
            i64::MAX,
            3_074_457_345_618_258_602,
            -1,
            i64::MAX,
            3,
            i64::MAX,
            -1,
            1,
            1,
        ],
    ),
];

#[test]
fn each_reducer_has_its_own_answer(rt: HostRuntime) {
    for (numbers, expected) in ANSWERS {
        assert_eq!(rt; answers(numbers), *expected, "at {numbers:?}");
    }
}

#[test]
fn a_sum_that_64_bits_do_not_hold_is_null(rt: HostRuntime) {
    for (a, b, sum, average) in [
        (i64::MAX, 1, None, Some(4_611_686_018_427_387_904)),
        (i64::MAX, i64::MAX, None, Some(i64::MAX)),
        (i64::MIN, i64::MIN, None, Some(i64::MIN)),
        (i64::MIN, i64::MAX, Some(-1), Some(0)),
    ] {
        assert_eq!(rt; answer::<SumR>(&[a, b]), sum, "at {a} {b}");
        assert_eq!(rt; answer::<AvgR>(&[a, b]), average, "at {a} {b}");
    }
}
