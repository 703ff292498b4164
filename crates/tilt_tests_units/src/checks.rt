// Query files in units, what is known of their inputs, and what their checks find.

/// A file with the scales of inputs and the text of their bounds, the report of its check, and the definition that can leave 64 bits. It
/// is "" if none can.
pub struct CheckCase {
    pub file: &'static str,
    pub scales: &'static [(&'static str, u64)],
    pub bounds: &'static str,
    pub report: &'static str,
    pub can_leave: &'static str,
}

pub const CHECKS: &[CheckCase] = &[
    // Loads from 0 to 5 are 0 to 50 at the scale 10, and their squares 0 to 2500 at the scale 100.
    CheckCase {
        file: "input load; input limit; emit load * load when load > limit + 0.3 over (0, 40];",
        scales: &[("load", 10), ("limit", 10)],
        bounds: "load=0:5,limit=-0.5:.5:1/60",
        report: "scale load 10\nscale limit 10\ndecimals 2\nrate load 1 1\nrate limit 1 60\nbound load 0 50\nbound limit -5 5\n\
bound emit 0 2500\nquery\ninput load;\ninput limit;\nemit load * load when load > limit + 3 over (0, 40];\n",
        can_leave: "",
    },
    // The ends of a bound are those of 64 bits, and one is left by the first definition.
    CheckCase {
        file: "input x; let y = x + 1; emit y * y over (0, 5];",
        scales: &[],
        bounds: "x=-9223372036854775808:9223372036854775807",
        report: "scale x 1\ndecimals 0\nrate x 1 1\nbound x -9223372036854775808 9223372036854775807\n\
overflow y 2 -9223372036854775807 9223372036854775808\nquery\ninput x;\nlet y = x + 1;\nemit y * y over (0, 5];\n",
        can_leave: "y",
    },
    // What is emitted has no name.
    CheckCase {
        file: "input x; emit x + 1 over (0, 5];",
        scales: &[],
        bounds: "x=0:9223372036854775807",
        report: "scale x 1\ndecimals 0\nrate x 1 1\nbound x 0 9223372036854775807\noverflow emit 2 1 9223372036854775808\n\
query\ninput x;\nemit x + 1 over (0, 5];\n",
        can_leave: "emit",
    },
];

/// Texts that say no bounds of an input `x` at the scale 10.
pub const BAD_BOUNDS: &[&str] = &[
    "",
    "x",
    "x=1",
    "x=1:",
    "x=2:1",
    "x=0.25:1",
    "x=0:922337203685477581",
    "x=0:1,x=0:1",
    "x=0:1,",
    "x=0:1:1",
    "x=0:1:0/5",
    "x=0:1:5/0",
    "x=0:1:1/2/3",
    "x=0:1:1/2:3",
    "x=0:1:-1/2",
    "1x=0:1",
    "=0:1",
];
