// Small queries that were worked out from the rules, with what they mean.
use crate::worked_queries::Word::{Const, If, One, Read, Reduce, Two};
use tilt_base::{Op1, Op2, Reducer};
use tilt_testing::Piece;

// An expression, written with each operator after its operands.
#[derive(Clone, Copy)]
pub enum Word {
    Const(i64),
    Read(u32, i64),
    Reduce(Reducer, u32, i64, i64),
    One(Op1),
    Two(Op2),
    If,
}

// A definition: its words, its span, and the period and the offset of its grid.
pub type DefWords<'a> = (&'a [Word], Option<(i64, i64)>, i64, i64);

// The last definition is taken on the domain.
#[derive(Clone, Copy)]
pub struct Case<'a> {
    pub name: &'a str,
    pub inputs: &'a [&'a [Piece]],
    pub defs: &'a [DefWords<'a>],
    pub domain: (i64, i64),
    pub want: &'a [Piece],
}

const NEIGHBOURS: &[Piece] = &[(0, 5, Some(7)), (5, 8, Some(7))];

const DIVIDENDS: &[Piece] = &[
    (0, 1, Some(7)),
    (1, 2, Some(-7)),
    (2, 3, Some(i64::MIN)),
    (3, 4, Some(5)),
    (4, 5, Some(-7)),
];

const DIVISORS: &[Piece] = &[
    (0, 1, Some(2)),
    (1, 2, Some(2)),
    (2, 3, Some(-1)),
    (3, 4, Some(0)),
    (4, 5, Some(-2)),
];

const THREE: &[Piece] = &[(0, 1, Some(5)), (1, 2, Some(1)), (2, 3, Some(4))];

const NEGATIVE: &[Piece] = &[(0, 1, Some(-1)), (1, 2, Some(-2)), (2, 3, None)];

// The first source, and the second.
const X: Word = Read(0, 0);

const Y: Word = Read(1, 0);

pub const CASES: &[Case] = &[
    Case {
        name: "equal neighbours stay two",
        inputs: &[NEIGHBOURS],
        defs: &[(&[X], Some((0, 10)), 1, 0)],
        domain: (0, 10),
        want: NEIGHBOURS,
    },
    Case {
        name: "null becomes a number",
        inputs: &[&[(2, 4, Some(5))]],
        defs: &[(&[X, One(Op1::IsNull), Const(0), X, If], Some((0, 6)), 1, 0)],
        domain: (0, 6),
        want: &[(0, 2, Some(0)), (2, 4, Some(5)), (4, 6, Some(0))],
    },
    Case {
        name: "the branch that isn't chosen still marks",
        inputs: &[&[(0, 6, Some(1))], &[(2, 3, Some(9))]],
        defs: &[(&[Const(1), X, Y, If], Some((0, 6)), 1, 0)],
        domain: (0, 6),
        want: &[(0, 2, Some(1)), (2, 3, Some(1)), (3, 6, Some(1))],
    },
    Case {
        name: "a window counts each snapshot that it meets",
        inputs: &[NEIGHBOURS],
        defs: &[(&[Reduce(Reducer::Count, 0, -3, 0)], Some((0, 10)), 1, 0)],
        domain: (0, 10),
        want: &[
            (0, 2, Some(1)),
            (2, 5, Some(1)),
            (5, 7, Some(2)),
            (7, 8, Some(1)),
            (8, 10, Some(1)),
        ],
    },
    Case {
        name: "a shift inside a window",
        inputs: &[&[
            (-4, -3, Some(100)),
            (0, 1, Some(10)),
            (1, 2, Some(20)),
            (2, 3, Some(30)),
        ]],
        defs: &[
            (&[Read(0, -2)], None, 1, 0),
            (&[Reduce(Reducer::Sum, 1, -3, 0)], Some((0, 5)), 1, 0),
        ],
        domain: (0, 5),
        want: &[
            (0, 1, Some(100)),
            (2, 3, Some(10)),
            (3, 4, Some(30)),
            (4, 5, Some(60)),
        ],
    },
    Case {
        name: "a sum that overflows and recovers",
        inputs: &[&[(0, 1, Some(i64::MAX)), (1, 2, Some(i64::MAX))]],
        defs: &[(&[Reduce(Reducer::Sum, 0, -3, 0)], Some((0, 8)), 1, 0)],
        domain: (0, 8),
        want: &[(0, 1, Some(i64::MAX)), (3, 4, Some(i64::MAX))],
    },
    Case {
        name: "a sum on a grid of 5",
        inputs: &[&[(0, 5, Some(1)), (5, 8, Some(2))]],
        defs: &[(&[Reduce(Reducer::Sum, 0, -5, 0)], Some((0, 10)), 5, 0)],
        domain: (0, 10),
        want: &[(0, 5, Some(1)), (5, 10, Some(2))],
    },
    Case {
        name: "rows that end at the window's first tick and before",
        inputs: &[&[(-2, -1, Some(8)), (-1, 0, Some(5)), (3, 4, Some(6))]],
        defs: &[(&[Reduce(Reducer::Count, 0, -2, 0)], Some((0, 4)), 1, 0)],
        domain: (0, 4),
        want: &[(0, 1, Some(1)), (3, 4, Some(1))],
    },
    Case {
        name: "the greatest of a sum of two inputs",
        inputs: &[&[(0, 4, Some(1)), (4, 8, Some(5))], &[(0, 6, Some(10))]],
        defs: &[
            (&[X, Y, Two(Op2::Add)], None, 1, 0),
            (&[Reduce(Reducer::Max, 2, -4, 0)], Some((0, 8)), 1, 0),
        ],
        domain: (0, 8),
        want: &[
            (0, 3, Some(11)),
            (3, 4, Some(11)),
            (4, 6, Some(15)),
            (6, 7, Some(15)),
            (7, 8, Some(15)),
        ],
    },
    Case {
        name: "a shift ahead",
        inputs: &[&[(0, 4, Some(1)), (4, 8, Some(2))]],
        defs: &[(&[Read(0, 3)], Some((0, 5)), 1, 0)],
        domain: (0, 5),
        want: &[(0, 1, Some(1)), (1, 5, Some(2))],
    },
    Case {
        name: "two sensors, and an average on a grid of 10",
        inputs: &[
            &[
                (0, 5, Some(20)),
                (5, 10, Some(23)),
                (10, 15, Some(30)),
                (15, 20, Some(31)),
                (20, 25, Some(28)),
                (25, 30, Some(26)),
            ],
            &[(0, 18, Some(25)), (18, 40, Some(26))],
        ],
        defs: &[
            (&[Reduce(Reducer::Avg, 0, -10, 0)], None, 10, 0),
            (
                &[
                    Read(2, 0),
                    Y,
                    Two(Op2::Sub),
                    Read(2, 0),
                    Y,
                    Two(Op2::Gt),
                    Two(Op2::When),
                ],
                Some((0, 30)),
                1,
                0,
            ),
        ],
        domain: (0, 30),
        want: &[(10, 18, Some(5)), (18, 20, Some(4)), (20, 30, Some(1))],
    },
    Case {
        name: "quotients at the ends of 64 bits",
        inputs: &[DIVIDENDS, DIVISORS],
        defs: &[(&[X, Y, Two(Op2::Div)], Some((0, 5)), 1, 0)],
        domain: (0, 5),
        want: &[(0, 1, Some(3)), (1, 2, Some(-3)), (4, 5, Some(3))],
    },
    Case {
        name: "remainders at the ends of 64 bits",
        inputs: &[DIVIDENDS, DIVISORS],
        defs: &[(&[X, Y, Two(Op2::Rem)], Some((0, 5)), 1, 0)],
        domain: (0, 5),
        want: &[
            (0, 1, Some(1)),
            (1, 2, Some(-1)),
            (2, 3, Some(0)),
            (4, 5, Some(-1)),
        ],
    },
    Case {
        name: "a null condition",
        inputs: &[&[(0, 1, Some(1)), (1, 2, Some(-1))], &[(0, 1, Some(1))]],
        defs: &[(
            &[
                X,
                Const(0),
                Two(Op2::Gt),
                Y,
                Const(0),
                Two(Op2::Gt),
                Two(Op2::And),
                Const(1),
                Const(2),
                If,
                Const(3),
                Two(Op2::IfNull),
            ],
            Some((0, 3)),
            1,
            0,
        )],
        domain: (0, 3),
        want: &[(0, 1, Some(1)), (1, 2, Some(3)), (2, 3, Some(3))],
    },
    Case {
        name: "any",
        inputs: &[THREE],
        defs: &[
            (&[X, Const(3), Two(Op2::Gt)], None, 1, 0),
            (
                &[Reduce(Reducer::Any, 1, -2, 0), Const(1), Const(0), If],
                Some((0, 5)),
                1,
                0,
            ),
        ],
        domain: (0, 5),
        want: &[
            (0, 1, Some(1)),
            (1, 2, Some(1)),
            (2, 3, Some(1)),
            (3, 4, Some(1)),
        ],
    },
    Case {
        name: "all",
        inputs: &[THREE],
        defs: &[
            (&[X, Const(3), Two(Op2::Gt)], None, 1, 0),
            (
                &[Reduce(Reducer::All, 1, -2, 0), Const(1), Const(0), If],
                Some((0, 5)),
                1,
                0,
            ),
        ],
        domain: (0, 5),
        want: &[
            (0, 1, Some(1)),
            (1, 2, Some(0)),
            (2, 3, Some(0)),
            (3, 4, Some(1)),
        ],
    },
    Case {
        name: "averages of negative numbers",
        inputs: &[NEGATIVE],
        defs: &[(&[Reduce(Reducer::Avg, 0, -3, 0)], Some((0, 3)), 1, 0)],
        domain: (0, 3),
        want: &[(0, 1, Some(-1)), (1, 2, Some(-1)), (2, 3, Some(-1))],
    },
    Case {
        name: "the last less the first, with a null row",
        inputs: &[NEGATIVE],
        defs: &[(
            &[
                Reduce(Reducer::Last, 0, -3, 0),
                Reduce(Reducer::First, 0, -3, 0),
                Two(Op2::Sub),
            ],
            Some((0, 3)),
            1,
            0,
        )],
        domain: (0, 3),
        want: &[(0, 1, Some(0)), (1, 2, Some(-1)), (2, 3, Some(-1))],
    },
    Case {
        name: "the last less the first",
        inputs: &[&[
            (0, 1, Some(1)),
            (1, 2, Some(2)),
            (2, 3, Some(4)),
            (3, 4, Some(8)),
            (4, 5, Some(16)),
        ]],
        defs: &[(
            &[
                Reduce(Reducer::Last, 0, -3, 0),
                Reduce(Reducer::First, 0, -3, 0),
                Two(Op2::Sub),
            ],
            Some((0, 5)),
            1,
            0,
        )],
        domain: (0, 5),
        want: &[
            (0, 1, Some(0)),
            (1, 2, Some(1)),
            (2, 3, Some(3)),
            (3, 4, Some(6)),
            (4, 5, Some(12)),
        ],
    },
    Case {
        name: "a span inside the domain",
        inputs: &[&[(0, 6, Some(9))]],
        defs: &[
            (&[X], Some((2, 4)), 1, 0),
            (&[Y, Const(0), Two(Op2::IfNull)], Some((0, 6)), 1, 0),
        ],
        domain: (0, 6),
        want: &[(0, 2, Some(0)), (2, 4, Some(9)), (4, 6, Some(0))],
    },
    Case {
        name: "a span that the domain doesn't meet",
        inputs: &[&[(0, 6, Some(9))]],
        defs: &[
            (&[X], Some((100, 200)), 1, 0),
            (&[Y, Const(0), Two(Op2::IfNull)], Some((0, 6)), 1, 0),
        ],
        domain: (0, 6),
        want: &[(0, 6, Some(0))],
    },
    Case {
        name: "a window meets the null stretches around a row",
        inputs: &[&[(2, 4, Some(5))]],
        defs: &[
            (&[X, Const(0), Two(Op2::IfNull)], None, 1, 0),
            (&[Reduce(Reducer::Count, 1, -3, 0)], Some((0, 6)), 1, 0),
        ],
        domain: (0, 6),
        want: &[(0, 2, Some(1)), (2, 4, Some(2)), (4, 6, Some(2))],
    },
    Case {
        name: "a window over no rows",
        inputs: &[&[]],
        defs: &[
            (&[X, Const(0), Two(Op2::IfNull)], None, 1, 0),
            (&[Reduce(Reducer::Count, 1, -3, 0)], Some((0, 6)), 1, 0),
        ],
        domain: (0, 6),
        want: &[(0, 6, Some(1))],
    },
    Case {
        name: "a grid of 2",
        inputs: &[&[(0, 3, Some(4)), (3, 6, Some(5))]],
        defs: &[(&[X], Some((0, 6)), 2, 0)],
        domain: (0, 6),
        want: &[(0, 2, Some(4)), (2, 6, Some(5))],
    },
    Case {
        name: "a grid of 2 from 1",
        inputs: &[&[(0, 3, Some(4)), (3, 6, Some(5))]],
        defs: &[(&[X], Some((0, 6)), 2, 1)],
        domain: (0, 6),
        want: &[(0, 3, Some(4)), (3, 5, Some(5))],
    },
    Case {
        name: "the grid is applied before the span",
        inputs: &[&[(0, 3, Some(4)), (3, 8, Some(5))]],
        defs: &[(&[X], Some((0, 5)), 2, 0)],
        domain: (0, 6),
        want: &[(0, 2, Some(4)), (2, 5, Some(5))],
    },
];
