// Query files in units, and what they emit.
use tilt_testing::Piece;

/// A query file, the scales of its inputs by name, the rows of each input, and the lines of its output.
pub type FileCase = (
    &'static str,
    &'static [(&'static str, u64)],
    &'static [&'static [Piece]],
    &'static str,
);

/// A query file, the scales of its inputs by name, and the line that reports why it is rejected.
pub type BadFile = (&'static str, &'static [(&'static str, u64)], &'static str);

// Readings in tenths: 97, one of 96.5, and 85 for 100 ticks.
const SPO2: &[Piece] = &[
    (0, 5, Some(970)),
    (5, 6, Some(965)),
    (6, 97, Some(970)),
    (97, 197, Some(850)),
];

const TENTHS: &[(&str, u64)] = &[("spo2", 10)];

// Prices in hundredths: 100.00 four times, and then 200.00.
const PRICE: &[Piece] = &[
    (0, 1, Some(10000)),
    (1, 2, Some(10000)),
    (2, 3, Some(10000)),
    (3, 4, Some(10000)),
    (4, 5, Some(20000)),
];

const HUNDREDTHS: &[(&str, u64)] = &[("price", 100)];

const BOTH: &[(&str, u64)] = &[("price", 100), ("spo2", 10)];

const CENTS: &[(&str, u64)] = &[("x", 100), ("y", 100)];

pub const FILES: &[FileCase] = &[
    // The alarm, which one reading of 96.5 doesn't switch off.
    (
        "input spo2; let low = ifnull(spo2 < 90, false); emit spo2 when all(low[t-60:t]) over (0, 600];",
        TENTHS,
        &[SPO2],
        "156,197,85.0\n",
    ),
    // Counts, truth values, products, sums and quotients.
    (
        "input spo2; emit count(spo2[t-60:t]) over (20, 30];",
        TENTHS,
        &[SPO2],
        "20,30,3\n",
    ),
    (
        "input spo2; emit 1 when spo2 > 0 over (97, 600];",
        TENTHS,
        &[SPO2],
        "97,197,1\n",
    ),
    (
        "input spo2; emit spo2 * spo2 over (6, 97];",
        TENTHS,
        &[SPO2],
        "6,97,9409.00\n",
    ),
    (
        "input spo2; emit spo2 + 1 over (6, 600];",
        TENTHS,
        &[SPO2],
        "6,97,98.0\n97,197,86.0\n",
    ),
    (
        "input spo2; emit 100 * spo2 / spo2 over (97, 600];",
        TENTHS,
        &[SPO2],
        "97,197,100\n",
    ),
    // Outliers: the number of prices is 5, their sum 600, and the count squared times the variance 40000. The last one is 80 from the mean.
    (
        "input price; let square = price * price; let n = count(price[t-60:t]); let s = sum(price[t-60:t]); \
         let v = n * sum(square[t-60:t]) - s * s; let d = n * price - s; emit price when 4 * d * d > 9 * v over (0, 5];",
        HUNDREDTHS,
        &[PRICE],
        "4,5,200.00\n",
    ),
    (
        "input price; let square = price * price; let n = count(price[t-60:t]); let s = sum(price[t-60:t]); \
         let v = n * sum(square[t-60:t]) - s * s; emit v over (4, 5];",
        HUNDREDTHS,
        &[PRICE],
        "4,5,40000.0000\n",
    ),
    // The other formula: 80000 / 5 - 120 * 120.
    (
        "input price; let square = price * price; let n = count(price[t-60:t]); let s = sum(price[t-60:t]); \
         emit sum(square[t-60:t]) / n - (s / n) * (s / n) over (4, 5];",
        HUNDREDTHS,
        &[PRICE],
        "4,5,1600.0000\n",
    ),
    // A third of 197.00 is 65.66.
    (
        "input price; input spo2; let m = (price + spo2) / 3; emit m * m over (0, 1];",
        BOTH,
        &[PRICE, SPO2],
        "0,1,4311.2356\n",
    ),
    // The square of a correlation that is 1.
    (
        "input x; input y; let xy = x * y; let xx = x * x; let yy = y * y; let n = count(x[t-9:t]); \
         let c = n * sum(xy[t-9:t]) - sum(x[t-9:t]) * sum(y[t-9:t]); \
         let vx = n * sum(xx[t-9:t]) - sum(x[t-9:t]) * sum(x[t-9:t]); \
         let vy = n * sum(yy[t-9:t]) - sum(y[t-9:t]) * sum(y[t-9:t]); emit c * c / (vx * vy) over (1, 2];",
        CENTS,
        &[
            &[(0, 1, Some(100)), (1, 2, Some(200))],
            &[(0, 1, Some(200)), (1, 2, Some(400))],
        ],
        "1,2,1\n",
    ),
    // An input of which no scale is given has whole numbers.
    (
        "input spo2; input pulse; emit if spo2 - 0.5 > pulse then 1 else 0 over (6, 97];",
        TENTHS,
        &[SPO2, &[(6, 50, Some(96)), (50, 97, Some(97))]],
        "6,50,1\n50,97,0\n",
    ),
];

pub const BAD_FILES: &[BadFile] = &[
    // What `tilt` reports of any query.
    (
        "input spo2; emit spo2 * 0.5 + # over (0, 600];",
        TENTHS,
        "tilt: 20 bad byte at 30\n",
    ),
    (
        "input spo2; emit spo2 * 0.5 + 92233720368547758.08 over (0, 600];",
        TENTHS,
        "tilt: 21 big number at 30\n",
    ),
    (
        "input spo2; emit spo2 * 0.5 over (0, 600]",
        TENTHS,
        "tilt: 24 statement 2: syntax\n",
    ),
    (
        "input spo2; emit spo2 * 0.5 + true over (0, 600];",
        TENTHS,
        "tilt: 28 statement 2: type mismatch\n",
    ),
    (
        "input spo2; emit spo2[t-1000000000001] + 0.5 over (0, 600];",
        TENTHS,
        "tilt: 31 too far: back 1000000000001 ahead 0\n",
    ),
    // Faults of the units.
    (
        "input spo2; emit spo2 + 1. over (0, 600];",
        TENTHS,
        "tilt: 110 bad point at 25\n",
    ),
    (
        "input spo2; emit spo2 * 0.1234567890123456789 over (0, 600];",
        TENTHS,
        "tilt: 111 too many decimals at 24\n",
    ),
    (
        "input spo2; emit spo2[t-1.5] over (0, 600];",
        TENTHS,
        "tilt: 112 ticks with a point at 24\n",
    ),
    (
        "input x; input y; emit x + y over (0, 600];",
        &[("x", 3), ("y", 2)],
        "tilt: 113 statement 3: scales differ\n",
    ),
    (
        "input spo2; emit spo2 when spo2 < 96.55 over (0, 600];",
        TENTHS,
        "tilt: 114 statement 2: literal not whole\n",
    ),
    (
        "input price; emit price + 92233720368547759 over (0, 600];",
        HUNDREDTHS,
        "tilt: 115 statement 2: literal too large\n",
    ),
    (
        "input spo2; emit spo2 * 0.000000000000000001 over (0, 600];",
        TENTHS,
        "tilt: 116 statement 2: scale too large\n",
    ),
    // A third has no decimals; the quotient of two has.
    (
        "input x; emit x over (0, 600];",
        &[("x", 3)],
        "tilt: 119 output scale 3\n",
    ),
];
