// Texts in units, and what they are.

/// A text, the scales that are given by name, and what is printed of the last definition, or the fault.
pub type TextCase = (&'static str, &'static [(&'static str, u64)], &'static str);

/// Readings in tenths.
const SPO2: &[(&str, u64)] = &[("spo2", 10)];

/// The same, and prices in hundredths.
const BOTH: &[(&str, u64)] = &[("price", 100), ("spo2", 10)];

pub const TEXTS: &[TextCase] = &[
    // A literal beside a reading takes its scale, with a point or without one.
    (
        "input spo2; let low = spo2 < 90; emit spo2 when low over (0, 600];",
        SPO2,
        "Number(Scale { parts: 10 }) Two(When, Read { source: 0, offset: 0 }, Read { source: 1, offset: 0 })",
    ),
    (
        "input spo2; emit spo2 when spo2 < 90 over (0, 600];",
        SPO2,
        "Number(Scale { parts: 10 }) Two(When, Read { source: 0, offset: 0 }, Two(Lt, Read { source: 0, offset: 0 }, Const(900)))",
    ),
    (
        "input spo2; emit spo2 when spo2 < 96.5 over (0, 600];",
        SPO2,
        "Number(Scale { parts: 10 }) Two(When, Read { source: 0, offset: 0 }, Two(Lt, Read { source: 0, offset: 0 }, Const(965)))",
    ),
    (
        "input spo2; emit spo2 when spo2 < 96.50 over (0, 600];",
        SPO2,
        "Number(Scale { parts: 10 }) Two(When, Read { source: 0, offset: 0 }, Two(Lt, Read { source: 0, offset: 0 }, Const(965)))",
    ),
    (
        "input spo2; emit spo2 when not (96.5 <= spo2) over (0, 600];",
        SPO2,
        "Number(Scale { parts: 10 }) Two(When, Read { source: 0, offset: 0 }, One(Not, Two(Le, Const(965), Read { source: 0, offset: 0 })))",
    ),
    // The alarm that one reading of 96.5 switched off.
    (
        "input spo2; let low = ifnull(spo2 < 90, false); emit spo2 when all(low[t-60:t]) over (0, 600];",
        SPO2,
        "Number(Scale { parts: 10 }) Two(When, Read { source: 0, offset: 0 }, Reduce { reducer: All, source: 1, from: -60, to: 0 })",
    ),
    // Counts, truth values, products and quotients.
    (
        "input spo2; emit count(spo2[t-60:t]) over (0, 600];",
        SPO2,
        "Number(Scale { parts: 1 }) Reduce { reducer: Count, source: 0, from: -60, to: 0 }",
    ),
    (
        "input spo2; emit 1 when spo2 > 0 over (0, 600];",
        SPO2,
        "Number(Scale { parts: 1 }) Two(When, Const(1), Two(Gt, Read { source: 0, offset: 0 }, Const(0)))",
    ),
    (
        "input spo2; emit spo2 * spo2 over (0, 600];",
        SPO2,
        "Number(Scale { parts: 100 }) Two(Mul, Read { source: 0, offset: 0 }, Read { source: 0, offset: 0 })",
    ),
    (
        "input spo2; emit spo2 + 1 over (0, 600];",
        SPO2,
        "Number(Scale { parts: 10 }) Two(Add, Read { source: 0, offset: 0 }, Const(10))",
    ),
    (
        "input spo2; emit 100 * spo2 / spo2 over (0, 600];",
        SPO2,
        "Number(Scale { parts: 1 }) Two(Div, Two(Mul, Const(100), Read { source: 0, offset: 0 }), Read { source: 0, offset: 0 })",
    ),
    // A literal of a product keeps as many decimals as it needs.
    (
        "input spo2; emit spo2 * 1.25 over (0, 600];",
        SPO2,
        "Number(Scale { parts: 1000 }) Two(Mul, Read { source: 0, offset: 0 }, Const(125))",
    ),
    (
        "input spo2; emit spo2 * 1.50 over (0, 600];",
        SPO2,
        "Number(Scale { parts: 100 }) Two(Mul, Read { source: 0, offset: 0 }, Const(15))",
    ),
    (
        "input spo2; emit spo2 * 2.0 over (0, 600];",
        SPO2,
        "Number(Scale { parts: 10 }) Two(Mul, Read { source: 0, offset: 0 }, Const(2))",
    ),
    (
        "input spo2; emit if true then spo2 else 0.5 over (0, 600];",
        SPO2,
        "Number(Scale { parts: 10 }) If(Const(1), Read { source: 0, offset: 0 }, Const(5))",
    ),
    // A shift, a window, a span and a grid are in ticks.
    (
        "input spo2; emit spo2[t-5] + 0.5 over (5, 605] every 10 from 5;",
        SPO2,
        "Number(Scale { parts: 10 }) Two(Add, Read { source: 0, offset: -5 }, Const(5))",
    ),
    // Two inputs at two scales; a name that isn't an input's.
    (
        "input spo2; input price; emit spo2 + price over (0, 600];",
        BOTH,
        "Number(Scale { parts: 100 }) Two(Add, Two(Mul, Const(10), Read { source: 0, offset: 0 }), Read { source: 1, offset: 0 })",
    ),
    (
        "input price; emit price - 0.01 over (0, 600];",
        BOTH,
        "Number(Scale { parts: 100 }) Two(Sub, Read { source: 0, offset: 0 }, Const(1))",
    ),
    // The recipe for outliers: a variance times the square of the count, and prices far from the mean.
    (
        "input price; let square = price * price; let n = count(price[t-60:t]); let s = sum(price[t-60:t]); let v = n * sum(square[t-60:t]) - s * s; let d = n * price - s; emit v over (0, 600];",
        BOTH,
        "Number(Scale { parts: 10000 }) Read { source: 4, offset: 0 }",
    ),
    (
        "input price; let square = price * price; let n = count(price[t-60:t]); let s = sum(price[t-60:t]); let v = n * sum(square[t-60:t]) - s * s; let d = n * price - s; emit price when 4 * d * d > 9 * v over (0, 600];",
        BOTH,
        "Number(Scale { parts: 100 }) Two(When, Read { source: 0, offset: 0 }, Two(Gt, Two(Mul, Two(Mul, Const(4), Read { source: 5, offset: 0 }), Read { source: 5, offset: 0 }), Two(Mul, Const(9), Read { source: 4, offset: 0 })))",
    ),
    (
        "input price; let square = price * price; let n = count(price[t-60:t]); let s = sum(price[t-60:t]); let v = n * sum(square[t-60:t]) - s * s; let d = n * price - s; emit sum(square[t-60:t]) / n - (s / n) * (s / n) over (0, 600];",
        BOTH,
        "Number(Scale { parts: 10000 }) Two(Sub, Two(Div, Reduce { reducer: Sum, source: 1, from: -60, to: 0 }, Read { source: 2, offset: 0 }), Two(Mul, Two(Div, Read { source: 3, offset: 0 }, Read { source: 2, offset: 0 }), Two(Div, Read { source: 3, offset: 0 }, Read { source: 2, offset: 0 })))",
    ),
    (
        "input price; input spo2; let m = (price + spo2) / 3; emit m * m over (0, 600];",
        BOTH,
        "Number(Scale { parts: 10000 }) Two(Mul, Read { source: 2, offset: 0 }, Read { source: 2, offset: 0 })",
    ),
    // Points that aren't between two digits of a number. Places are those of the text.
    (
        "input spo2; emit spo2 + 1. over (0, 600];",
        SPO2,
        "BadPoint { at: 25 }",
    ),
    (
        "input spo2; emit spo2 + .5 over (0, 600];",
        SPO2,
        "BadPoint { at: 24 }",
    ),
    (
        "input spo2; emit spo2 + 0.5.5 over (0, 600];",
        SPO2,
        "BadPoint { at: 27 }",
    ),
    (
        "input spo2; emit spo2 + 0. 5 over (0, 600];",
        SPO2,
        "BadPoint { at: 25 }",
    ),
    (
        "input spo2; emit spo2.5 over (0, 600];",
        SPO2,
        "BadPoint { at: 21 }",
    ),
    (
        "input spo2; emit spo2 <.= 5 over (0, 600];",
        SPO2,
        "BadPoint { at: 23 }",
    ),
    (
        "input spo2; emit spo2 over (0, 600];.",
        SPO2,
        "BadPoint { at: 36 }",
    ),
    // Decimals for numbers of ticks.
    (
        "input spo2; emit spo2[t-1.5] over (0, 600];",
        SPO2,
        "TicksWithPoint { at: 24 }",
    ),
    (
        "input spo2; emit max(spo2[t-2:t+0.5]) + 0.5 over (0, 600];",
        SPO2,
        "TicksWithPoint { at: 32 }",
    ),
    (
        "input spo2; emit 0.5 + spo2 over (0, 600.5];",
        SPO2,
        "TicksWithPoint { at: 37 }",
    ),
    (
        "input spo2; emit 0.5 + spo2 over (0, 600] every 60.0;",
        SPO2,
        "TicksWithPoint { at: 48 }",
    ),
    // Too many digits.
    (
        "input spo2; emit spo2 * 0.1234567890123456789 over (0, 600];",
        SPO2,
        "ManyDecimals { at: 24 }",
    ),
    (
        "input spo2; emit spo2 * 0.5 + 92233720368547758.08 over (0, 600];",
        SPO2,
        "BigNumber { at: 30 }",
    ),
    (
        "input spo2; emit spo2 * 0.000000000000000001 over (0, 600];",
        SPO2,
        "Scale { statement: 2, fault: ScaleTooLarge(Place { definition: 0, node: 0 }) }",
    ),
    // A literal that isn't whole at the scale of the other operand, or too large there.
    (
        "input spo2; emit spo2 when spo2 < 96.55 over (0, 600];",
        SPO2,
        "Scale { statement: 2, fault: LiteralNotWhole(Place { definition: 0, node: 2 }) }",
    ),
    (
        "input price; emit price + 92233720368547759 over (0, 600];",
        BOTH,
        "Scale { statement: 2, fault: LiteralTooLarge(Place { definition: 0, node: 0 }) }",
    ),
    // The second definition is the fourth statement.
    (
        "input spo2; let low = spo2 < 90; input price; emit spo2 when low and spo2 < 96.55 over (0, 600];",
        BOTH,
        "Scale { statement: 4, fault: LiteralNotWhole(Place { definition: 1, node: 4 }) }",
    ),
    // An input of which no scale is given has whole numbers.
    (
        "input spo2; input pulse; emit spo2 + pulse over (0, 600];",
        SPO2,
        "Number(Scale { parts: 10 }) Two(Add, Read { source: 0, offset: 0 }, Two(Mul, Const(10), Read { source: 1, offset: 0 }))",
    ),
    // Other texts that aren't queries.
    (
        "input spo2; emit spo2 * 0.5 + # over (0, 600];",
        SPO2,
        "BadByte { at: 30 }",
    ),
    (
        "input spo2; emit spo2 * 0.5 over (0, 600]",
        SPO2,
        "Syntax(Syntax { statement: 2 })",
    ),
    (
        "input spo2; emit spo2 * 0.5 + true over (0, 600];",
        SPO2,
        "IllFormed(TypeMismatch { statement: 2 })",
    ),
];

/// Texts, scales, and the texts of the queries over whole numbers.
pub const WHOLE: &[TextCase] = &[
    // Truth values stay truth values, and names stay names.
    (
        "input spo2; let low = ifnull(spo2 < 90.5, false) or true; emit 1 when all(low[t-60:t]) over (0, 600] every 5;",
        SPO2,
        "input spo2;\nlet low = ifnull(spo2 < 905, false) or true;\nemit 1 when all(low[t-60:t]) over (0, 600] every 5;\n",
    ),
    // What is multiplied: an operand with the smaller scale, also if it is a product.
    (
        "input spo2; input price; emit spo2[t-1] + price over (0, 600];",
        BOTH,
        "input spo2;\ninput price;\nemit 10 * spo2[t-1] + price over (0, 600];\n",
    ),
    (
        "input spo2; input price; emit if price > 2 * (3 * spo2) then -spo2 else price over (0, 600];",
        BOTH,
        "input spo2;\ninput price;\nemit if price > 10 * (2 * (3 * spo2)) then 10 * -spo2 else price over (0, 600];\n",
    ),
    (
        "input price; emit 2 * (price - 0.01) * 1.5 / price over (-5, 600];",
        BOTH,
        "input price;\nemit 2 * (price - 1) * 15 / price over (-5, 600];\n",
    ),
    // Two literals that are added.
    (
        "input price; emit price * (1 + 0.5) over (0, 600];",
        BOTH,
        "input price;\nemit price * (10 * 1 + 5) over (0, 600];\n",
    ),
];
