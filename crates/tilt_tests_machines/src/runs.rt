// Runs that were worked out by hand from the definitions. Both machines give them.
use tilt_testing::Piece;

// A listing, the rows of its inputs, and the snapshots of its run.
#[derive(Clone, Copy)]
pub struct Case<'a> {
    pub code: &'a str,
    pub inputs: &'a [&'a [Piece]],
    pub want: &'a [Piece],
}

// The largest over the last four ticks of what is one more.
const ONE_MORE: &str =
    "tilt 1\ninput x\nloop 0 8 1 0\nmap\nr0 = cell\nr1 = const 1\nr2 = add r0 r1\nend\nr0 = win max b0 -4 0 m0\nend\n";

// How many snapshots meet the last three ticks, where null counts as 0.
const NULLS_COUNT: &str =
    "tilt 1\ninput x\nloop 0 6 1 0\nmap\nr0 = cell\nr1 = const 0\nr2 = ifnull r0 r1\nend\nr0 = win count b0 -3 0 m0\nend\n";

// The sum over the last two ticks, where null counts as 7.
const NULL_IS_SEVEN: &str =
    "tilt 1\ninput x\nloop 0 12 1 0\nmap\nr0 = cell\nr1 = const 7\nr2 = ifnull r0 r1\nend\nr0 = win sum b0 -2 0 m0\nend\n";

const LAST_THREE: &str = "tilt 1\ninput x\nloop 0 4 1 0\nr0 = win sum b0 -3 0\nend\n";

const FIRST_UNREAD: &str =
    "tilt 1\ninput x\nloop 0 4 1 0\nr0 = const 1\nend\nloop 0 6 1 0\nr0 = port b0 0\nend\n";

// The stretch begins and ends off the grid of 3, 8, 13, 18, 23.
const OFF_THE_GRID: &str = "tilt 1\ninput x\nloop 1 19 5 3\nr0 = port b0 0\nend\n";

// The two ticks of a window lie after all those that it met at the grid point before.
const LEAPS: &str = "tilt 1\ninput x\nloop 0 10 5 0\nr0 = win sum b0 -2 0\nend\n";

// The first branch is always chosen, and the other has its marks at 3 and 5.
const ONE_BRANCH: &str =
    "tilt 1\ninput x\ninput y\nloop 0 6 1 0\nr0 = port b0 -1\nr1 = port b1 1\nr2 = const 1\nr3 = if r2 r0 r1\nend\n";

// A loop up to the largest time, and one that looks one tick past it.
const AT_THE_END: &str =
    "tilt 1\nloop 4499999999999999990 4500000000000000000 1 0\nr0 = const 7\nend\n\
    loop 4499999999999999998 4500000000000000000 1 0\nr0 = port b0 1\nend\n";

// Both loops go from the smallest time to the largest, and the second looks as far as any may, on the widest grid.
const ALL_TIME: &str =
    "tilt 1\nloop -4500000000000000000 4500000000000000000 1 0\nr0 = const 7\nend\n\
    loop -4500000000000000000 4500000000000000000 1000000000001 1000000000000\n\
    r0 = port b0 -2000000000000\nr1 = port b0 2000000000000\nr2 = sub r0 r1\nend\n";

// A window over a shift: the first loop makes no more than the window reads, and the window's ticks reach back over two of its snapshots.
pub const WINDOW_OVER_SHIFT: &str =
    "tilt 1\ninput x\nloop -2 7 1 0\nr0 = port b0 -2\nend\nloop 0 7 1 0\nr0 = win sum b1 -3 0\nend\n";

// Three loops, of which the second is read by none.
const SECOND_UNREAD: &str =
    "tilt 1\ninput x\nloop 0 4 1 0\nr0 = port b0 0\nend\nloop 0 4 1 0\nr0 = port b1 0\nend\nloop 0 4 1 0\nr0 = port b1 -1\nend\n";

// The last loop reads the second, and the second the first, which goes on past what the last one reads.
const SHIFT_OF_SUM: &str = "tilt 1\ninput x\ninput w\nloop -1 2 1 0\nr0 = port b0 0\nend\n\
    loop -1 2 1 0\nr0 = port b2 0\nr1 = port b1 0\nr2 = add r0 r1\nend\n\
    loop 0 2 1 0\nr0 = port b3 -1\nend\n";

pub const FOUR_ROWS: &[Piece] = &[
    (0, 2, Some(1)),
    (2, 3, Some(5)),
    (3, 4, Some(2)),
    (4, 5, Some(7)),
];

pub const CASES: &[Case<'_>] = &[
    Case {
        code: ONE_MORE,
        inputs: &[&[(0, 4, Some(1)), (4, 8, Some(5))]],
        want: &[
            (0, 3, Some(2)),
            (3, 4, Some(2)),
            (4, 7, Some(6)),
            (7, 8, Some(6)),
        ],
    },
    Case {
        code: NULLS_COUNT,
        inputs: &[&[(2, 4, Some(5))]],
        want: &[(0, 2, Some(1)), (2, 4, Some(2)), (4, 6, Some(2))],
    },
    Case {
        code: NULLS_COUNT,
        inputs: &[&[]],
        want: &[(0, 6, Some(1))],
    },
    Case {
        code: NULL_IS_SEVEN,
        inputs: &[&[(1, 3, Some(1)), (5, 8, Some(2))]],
        want: &[
            (0, 1, Some(7)),
            (1, 2, Some(8)),
            (2, 3, Some(1)),
            (3, 4, Some(8)),
            (4, 5, Some(7)),
            (5, 6, Some(9)),
            (6, 8, Some(2)),
            (8, 9, Some(9)),
            (9, 12, Some(7)),
        ],
    },
    Case {
        code: LAST_THREE,
        inputs: &[&[(0, 1, Some(i64::MAX)), (1, 2, Some(1)), (2, 3, Some(-1))]],
        want: &[
            (0, 1, Some(i64::MAX)),
            (1, 2, None),
            (2, 3, Some(i64::MAX)),
            (3, 4, Some(0)),
        ],
    },
    Case {
        code: FIRST_UNREAD,
        inputs: &[&[(1, 3, Some(4))]],
        want: &[(0, 1, None), (1, 3, Some(4)), (3, 6, None)],
    },
    Case {
        code: OFF_THE_GRID,
        inputs: &[&[(0, 4, Some(1)), (4, 13, Some(2)), (13, 20, Some(3))]],
        want: &[
            (1, 3, Some(1)),
            (3, 13, Some(2)),
            (13, 18, Some(3)),
            (18, 19, None),
        ],
    },
    Case {
        code: LEAPS,
        inputs: &[&[(0, 4, Some(1)), (4, 6, None), (6, 9, Some(5))]],
        want: &[(0, 5, Some(1)), (5, 10, Some(5))],
    },
    Case {
        code: ONE_BRANCH,
        inputs: &[&[(0, 8, Some(4))], &[(3, 5, Some(9))]],
        want: &[
            (0, 1, None),
            (1, 2, Some(4)),
            (2, 4, Some(4)),
            (4, 6, Some(4)),
        ],
    },
    Case {
        code: AT_THE_END,
        inputs: &[],
        want: &[
            (
                4_499_999_999_999_999_998,
                4_499_999_999_999_999_999,
                Some(7),
            ),
            (4_499_999_999_999_999_999, 4_500_000_000_000_000_000, None),
        ],
    },
    Case {
        code: ALL_TIME,
        inputs: &[],
        want: &[
            (-4_500_000_000_000_000_000, -4_499_998_000_004_499_999, None),
            (
                -4_499_998_000_004_499_999,
                4_499_997_000_004_499_996,
                Some(0),
            ),
            (4_499_997_000_004_499_996, 4_500_000_000_000_000_000, None),
        ],
    },
    Case {
        code: WINDOW_OVER_SHIFT,
        inputs: &[FOUR_ROWS],
        want: &[
            (0, 2, None),
            (2, 4, Some(1)),
            (4, 5, Some(6)),
            (5, 6, Some(8)),
            (6, 7, Some(14)),
        ],
    },
    Case {
        code: SECOND_UNREAD,
        inputs: &[&[(0, 1, Some(1)), (1, 2, Some(2)), (2, 3, Some(3))]],
        want: &[
            (0, 1, None),
            (1, 2, Some(1)),
            (2, 3, Some(2)),
            (3, 4, Some(3)),
        ],
    },
    Case {
        code: SHIFT_OF_SUM,
        inputs: &[&[(0, 1, Some(5))], &[(0, 1, Some(1)), (1, 2, Some(2))]],
        want: &[(0, 1, None), (1, 2, Some(6))],
    },
];
