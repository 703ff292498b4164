// Queries with what is known of their inputs, and what is printed of them.

/// The name of an input, the ends of its interval, and its rate.
pub type Known = (&'static str, (i64, i64), (u64, u64));

/// The scales of inputs, what is known of them, the decimals of the output, the query, and what is printed.
pub type ReportCase = (
    &'static [(&'static str, u64)],
    &'static [Known],
    u8,
    &'static str,
    &'static str,
);

pub const REPORTS: &[ReportCase] = &[
    // Of two bounds with one name the first one counts. An input without a bound can have a mark at any tick.
    (
        &[("limit", 10), ("temperature", 10)],
        &[
            ("temperature", (-500, 1500), (1, 5)),
            ("limit", (0, 1000), (1, 1)),
            ("temperature", (0, 0), (0, 0)),
        ],
        1,
        "input temperature; input limit; let average = avg(temperature[t-10:t]); emit average - limit over (0, 100];",
        "scale temperature 10
scale limit 10
decimals 1
rate temperature 1 5
rate limit 1 1
bound temperature -500 1500
bound limit 0 1000
bound average -500 1500
bound emit -1500 1500
query
input temperature;
input limit;
let average = avg(temperature[t-10:t]);
emit average - limit over (0, 100];
",
    ),
    // In 10 ticks there are at most 2 * (10 / 5 + 1) marks, so that a window meets 7 snapshots.
    (
        &[],
        &[("x", (-3, 2), (2, 5))],
        0,
        "input x; emit sum(x[t-10:t]) over (0, 5];",
        "scale x 1
decimals 0
rate x 2 5
bound x -3 2
bound emit -21 14
query
input x;
emit sum(x[t-10:t]) over (0, 5];
",
    ),
    // No bounds come after the first node that can leave 64 bits: a sum of 10 numbers.
    (
        &[],
        &[],
        0,
        "input x; let s = sum(x[t-10:t]); let u = s * s; emit u over (0, 5];",
        "scale x 1
decimals 0
rate x 1 1
bound x -9223372036854775808 9223372036854775807
overflow s 2 -92233720368547758080 92233720368547758070
query
input x;
let s = sum(x[t-10:t]);
let u = s * s;
emit u over (0, 5];
",
    ),
    // What is emitted has no name. Statements are counted with the inputs among them.
    (
        &[("z", 100)],
        &[
            ("x", (0, 9223372036854775807), (1, 1)),
            ("z", (0, 1), (1, 1)),
        ],
        2,
        "input x; let y = x; input z; emit y + z over (0, 5];",
        "scale x 1
scale z 100
decimals 2
rate x 1 1
rate z 1 1
bound x 0 9223372036854775807
bound z 0 1
overflow emit 4 0 9223372036854775808
query
input x;
let y = x;
input z;
emit y + z over (0, 5];
",
    ),
];

/// The second and the third bound are of no input: a definition isn't one.
pub const UNKNOWN: ReportCase = (
    &[],
    &[
        ("x", (0, 5), (1, 1)),
        ("y", (0, 5), (1, 1)),
        ("z", (0, 5), (1, 1)),
    ],
    0,
    "input x; let y = x; emit y over (0, 5];",
    "",
);
