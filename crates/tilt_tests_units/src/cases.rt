// Expressions in units, in postfix order.
use Word::{If, Literal, One, Read, Reduce, Truth, Two};
use tilt_base::{Op1, Op2, Reducer};

/// A step of an expression: a leaf, or an operator on what is before it.
#[derive(Clone, Copy)]
pub enum Word {
    Literal(i64, u64),
    Truth(bool),
    Read(u32),
    Reduce(Reducer, u32),
    One(Op1),
    Two(Op2),
    If,
}

/// The scales of the inputs, the definitions, and what is printed of the last one.
pub type Case = (&'static [u64], &'static [&'static [Word]], &'static str);

/// `spo2` in tenths is source 0. `trades` in whole numbers is source 1, and `price` in hundredths is source 2.
const INPUTS: &[u64] = &[10, 1, 100];

// Of `price[t-60:t]`: its square, the count, the sum, the count squared times the variance, and the count times the distance from the
// mean. They are sources 3 to 7.
const SQUARE: &[Word] = &[Read(2), Read(2), Two(Op2::Mul)];

const COUNT: &[Word] = &[Reduce(Reducer::Count, 2)];

const SUM: &[Word] = &[Reduce(Reducer::Sum, 2)];

const SPREAD: &[Word] = &[
    Read(4),
    Reduce(Reducer::Sum, 3),
    Two(Op2::Mul),
    Read(5),
    Read(5),
    Two(Op2::Mul),
    Two(Op2::Sub),
];

const DISTANCE: &[Word] = &[Read(4), Read(2), Two(Op2::Mul), Read(5), Two(Op2::Sub)];

pub const CASES: &[Case] = &[
    // spo2 < 90
    (
        INPUTS,
        &[&[Read(0), Literal(90, 1), Two(Op2::Lt)]],
        "Truth Two(Lt, Read { source: 0, offset: 0 }, Const(900))",
    ),
    // count(spo2[t-60:t])
    (
        INPUTS,
        &[&[Reduce(Reducer::Count, 0)]],
        "Number(Scale { parts: 1 }) Reduce { reducer: Count, source: 0, from: -60, to: 0 }",
    ),
    // avg(spo2[t-60:t]) + 0.5
    (
        INPUTS,
        &[&[Reduce(Reducer::Avg, 0), Literal(5, 10), Two(Op2::Add)]],
        "Number(Scale { parts: 10 }) Two(Add, Reduce { reducer: Avg, source: 0, from: -60, to: 0 }, Const(5))",
    ),
    // 1 when spo2 > 0
    (
        INPUTS,
        &[&[
            Literal(1, 1),
            Read(0),
            Literal(0, 1),
            Two(Op2::Gt),
            Two(Op2::When),
        ]],
        "Number(Scale { parts: 1 }) Two(When, Const(1), Two(Gt, Read { source: 0, offset: 0 }, Const(0)))",
    ),
    // spo2 * spo2
    (
        INPUTS,
        &[&[Read(0), Read(0), Two(Op2::Mul)]],
        "Number(Scale { parts: 100 }) Two(Mul, Read { source: 0, offset: 0 }, Read { source: 0, offset: 0 })",
    ),
    // spo2 + 1
    (
        INPUTS,
        &[&[Read(0), Literal(1, 1), Two(Op2::Add)]],
        "Number(Scale { parts: 10 }) Two(Add, Read { source: 0, offset: 0 }, Const(10))",
    ),
    // 100 * spo2 / spo2
    (
        INPUTS,
        &[&[
            Literal(100, 1),
            Read(0),
            Two(Op2::Mul),
            Read(0),
            Two(Op2::Div),
        ]],
        "Number(Scale { parts: 1 }) Two(Div, Two(Mul, Const(100), Read { source: 0, offset: 0 }), \
         Read { source: 0, offset: 0 })",
    ),
    // spo2 + price: the tenths become hundredths.
    (
        INPUTS,
        &[&[Read(0), Read(2), Two(Op2::Add)]],
        "Number(Scale { parts: 100 }) Two(Add, Two(Mul, Const(10), Read { source: 0, offset: 0 }), \
         Read { source: 2, offset: 0 })",
    ),
    // price - trades
    (
        INPUTS,
        &[&[Read(2), Read(1), Two(Op2::Sub)]],
        "Number(Scale { parts: 100 }) Two(Sub, Read { source: 2, offset: 0 }, \
         Two(Mul, Const(100), Read { source: 1, offset: 0 }))",
    ),
    // trades / price: the dividend is multiplied, since 1 / 100 isn't whole.
    (
        INPUTS,
        &[&[Read(1), Read(2), Two(Op2::Div)]],
        "Number(Scale { parts: 1 }) Two(Div, Two(Mul, Const(100), Read { source: 1, offset: 0 }), \
         Read { source: 2, offset: 0 })",
    ),
    // price * 1.5
    (
        INPUTS,
        &[&[Read(2), Literal(15, 10), Two(Op2::Mul)]],
        "Number(Scale { parts: 1000 }) Two(Mul, Read { source: 2, offset: 0 }, Const(15))",
    ),
    // if true then ifnull(spo2, 0) else 97.5
    (
        INPUTS,
        &[&[
            Truth(true),
            Read(0),
            Literal(0, 1),
            Two(Op2::IfNull),
            Literal(975, 10),
            If,
        ]],
        "Number(Scale { parts: 10 }) If(Const(1), Two(IfNull, Read { source: 0, offset: 0 }, Const(0)), Const(975))",
    ),
    // let low = spo2 < 90; let n = count(low[t-60:t]); n + 1
    (
        INPUTS,
        &[
            &[Read(0), Literal(90, 1), Two(Op2::Lt)],
            &[Reduce(Reducer::Count, 3)],
            &[Read(4), Literal(1, 1), Two(Op2::Add)],
        ],
        "Number(Scale { parts: 1 }) Two(Add, Read { source: 4, offset: 0 }, Const(1))",
    ),
    // let square = price * price; let n = count(price[w]); let s = sum(price[w]); n * sum(square[w]) - s * s
    (
        INPUTS,
        &[SQUARE, COUNT, SUM, SPREAD],
        "Number(Scale { parts: 10000 }) Two(Sub, \
         Two(Mul, Read { source: 4, offset: 0 }, Reduce { reducer: Sum, source: 3, from: -60, to: 0 }), \
         Two(Mul, Read { source: 5, offset: 0 }, Read { source: 5, offset: 0 }))",
    ),
    // let v be that; let d = n * price - s; price when 4 * d * d > 9 * v
    (
        INPUTS,
        &[
            SQUARE,
            COUNT,
            SUM,
            SPREAD,
            DISTANCE,
            &[
                Read(2),
                Literal(4, 1),
                Read(7),
                Two(Op2::Mul),
                Read(7),
                Two(Op2::Mul),
                Literal(9, 1),
                Read(6),
                Two(Op2::Mul),
                Two(Op2::Gt),
                Two(Op2::When),
            ],
        ],
        "Number(Scale { parts: 100 }) Two(When, Read { source: 2, offset: 0 }, Two(Gt, \
         Two(Mul, Two(Mul, Const(4), Read { source: 7, offset: 0 }), Read { source: 7, offset: 0 }), \
         Two(Mul, Const(9), Read { source: 6, offset: 0 })))",
    ),
    // 1 when isnull(v) and not isnull(n)
    (
        INPUTS,
        &[
            SQUARE,
            COUNT,
            SUM,
            SPREAD,
            &[
                Literal(1, 1),
                Read(6),
                One(Op1::IsNull),
                Read(4),
                One(Op1::IsNull),
                One(Op1::Not),
                Two(Op2::And),
                Two(Op2::When),
            ],
        ],
        "Number(Scale { parts: 1 }) Two(When, Const(1), Two(And, One(IsNull, Read { source: 6, offset: 0 }), \
         One(Not, One(IsNull, Read { source: 4, offset: 0 }))))",
    ),
    // sum(square[w]) / n - (s / n) * (s / n)
    (
        INPUTS,
        &[
            SQUARE,
            COUNT,
            SUM,
            &[
                Reduce(Reducer::Sum, 3),
                Read(4),
                Two(Op2::Div),
                Read(5),
                Read(4),
                Two(Op2::Div),
                Read(5),
                Read(4),
                Two(Op2::Div),
                Two(Op2::Mul),
                Two(Op2::Sub),
            ],
        ],
        "Number(Scale { parts: 10000 }) Two(Sub, \
         Two(Div, Reduce { reducer: Sum, source: 3, from: -60, to: 0 }, Read { source: 4, offset: 0 }), \
         Two(Mul, Two(Div, Read { source: 5, offset: 0 }, Read { source: 4, offset: 0 }), \
         Two(Div, Read { source: 5, offset: 0 }, Read { source: 4, offset: 0 })))",
    ),
    // let c = price * spo2; let v = price * price; let u = spo2 * spo2; c * c / (v * u): thousandths by thousandths, so whole.
    (
        INPUTS,
        &[
            &[Read(2), Read(0), Two(Op2::Mul)],
            SQUARE,
            &[Read(0), Read(0), Two(Op2::Mul)],
            &[
                Read(3),
                Read(3),
                Two(Op2::Mul),
                Read(4),
                Read(5),
                Two(Op2::Mul),
                Two(Op2::Div),
            ],
        ],
        "Number(Scale { parts: 1 }) Two(Div, \
         Two(Mul, Read { source: 3, offset: 0 }, Read { source: 3, offset: 0 }), \
         Two(Mul, Read { source: 4, offset: 0 }, Read { source: 5, offset: 0 }))",
    ),
    // let m = (price + spo2) / 3; m * m
    (
        INPUTS,
        &[
            &[
                Read(2),
                Read(0),
                Two(Op2::Add),
                Literal(3, 1),
                Two(Op2::Div),
            ],
            &[Read(3), Read(3), Two(Op2::Mul)],
        ],
        "Number(Scale { parts: 10000 }) Two(Mul, Read { source: 3, offset: 0 }, Read { source: 3, offset: 0 })",
    ),
    // last(price[w]), which has the scale of the prices, as the minimum and the maximum have
    (
        INPUTS,
        &[&[Reduce(Reducer::Last, 2)]],
        "Number(Scale { parts: 100 }) Reduce { reducer: Last, source: 2, from: -60, to: 0 }",
    ),
    // let low = spo2 < 90; all(low[w])
    (
        INPUTS,
        &[
            &[Read(0), Literal(90, 1), Two(Op2::Lt)],
            &[Reduce(Reducer::All, 3)],
        ],
        "Truth Reduce { reducer: All, source: 3, from: -60, to: 0 }",
    ),
    // let low = spo2 < 90; 1 + sum(low[w])
    (
        INPUTS,
        &[
            &[Read(0), Literal(90, 1), Two(Op2::Lt)],
            &[Literal(1, 1), Reduce(Reducer::Sum, 3), Two(Op2::Add)],
        ],
        "TypeMismatch(Place { definition: 1, node: 2 })",
    ),
    // any(price[w])
    (
        INPUTS,
        &[&[Reduce(Reducer::Any, 2)]],
        "TypeMismatch(Place { definition: 0, node: 0 })",
    ),
    // -(price > 0.5)
    (
        INPUTS,
        &[&[Read(2), Literal(5, 10), Two(Op2::Gt), One(Op1::Neg)]],
        "TypeMismatch(Place { definition: 0, node: 0 })",
    ),
    // spo2 < 96.55
    (
        INPUTS,
        &[&[Read(0), Literal(9655, 100), Two(Op2::Lt)]],
        "LiteralNotWhole(Place { definition: 0, node: 0 })",
    ),
    // trades; then trades + (spo2 < 96.55)
    (
        INPUTS,
        &[
            &[Read(1)],
            &[
                Read(1),
                Read(0),
                Literal(9655, 100),
                Two(Op2::Lt),
                Two(Op2::Add),
            ],
        ],
        "LiteralNotWhole(Place { definition: 1, node: 2 })",
    ),
    // price == 92233720368547759
    (
        INPUTS,
        &[&[Read(2), Literal(92233720368547759, 1), Two(Op2::Eq)]],
        "LiteralTooLarge(Place { definition: 0, node: 0 })",
    ),
    // thirds + halves
    (
        &[3, 2],
        &[&[Read(0), Read(1), Two(Op2::Add)]],
        "ScalesDiffer(Place { definition: 0, node: 0 })",
    ),
    (
        &[4294967296, 2147483648],
        &[&[Read(0), Read(1), Two(Op2::Mul)]],
        "ScaleTooLarge(Place { definition: 0, node: 0 })",
    ),
    // A source that comes later.
    (
        INPUTS,
        &[&[Read(3)]],
        "UnknownSource(Place { definition: 0, node: 0 })",
    ),
];
