// Events of queries with what comes out after each, worked out by hand, and live engines that take them.
ghost use Rattle.std.specs.Prelude.{IfOk};
ghost use Rattle.tilt_live.specs.Lives.{IsLive};

use std::alloc::Global;
use std::test::Fail;
use tilt_base::{Cell, T};
use tilt_compiler::accept;
use tilt_feed::{Event, Update};
use tilt_live::Live;
use tilt_testing::{Piece, core_of, piece_of};

// What an event says of an input, which has a number: a row, a value from a tick on, or that it is known up to a tick. Or it says that the
// feed is finished.
#[derive(Drop)]
pub(crate) enum Said {
    Row(u32, i64, i64, i64),
    Value(u32, i64, i64),
    Known(u32, i64),
    Finish,
}

// An event that is allowed, and what comes out after it: the snapshots that are final, and what has begun.
pub(crate) struct Step {
    pub(crate) said: Said,
    pub(crate) printed: &'static [Piece],
    pub(crate) begun: Option<(i64, Cell)>,
}

// The input itself.
pub(crate) const ITSELF: &str = "input x;\nemit x over (0, 30];";

pub(crate) const ITSELF_STEPS: &[Step] = &[
    Step {
        said: Said::Row(0, 0, 10, 5),
        printed: &[(0, 10, Some(5))],
        begun: None,
    },
    // A gap has begun.
    Step {
        said: Said::Known(0, 20),
        printed: &[],
        begun: Some((10, None)),
    },
    Step {
        said: Said::Value(0, 22, 7),
        printed: &[(10, 22, None)],
        begun: Some((22, Some(7))),
    },
    Step {
        said: Said::Known(0, 25),
        printed: &[],
        begun: Some((22, Some(7))),
    },
    // The open row ends.
    Step {
        said: Said::Row(0, 22, 26, 7),
        printed: &[(22, 26, Some(7))],
        begun: None,
    },
    Step {
        said: Said::Finish,
        printed: &[(26, 30, None)],
        begun: None,
    },
];

// How many rows a window meets.
pub(crate) const COUNTED: &str = "input x;\nemit count(x[t-3:t]) over (0, 8];";

pub(crate) const COUNTED_STEPS: &[Step] = &[
    Step {
        said: Said::Row(0, 0, 2, 1),
        printed: &[(0, 2, Some(1))],
        begun: None,
    },
    Step {
        said: Said::Row(0, 4, 6, 2),
        printed: &[(2, 4, Some(1)), (4, 6, Some(1))],
        begun: None,
    },
    Step {
        said: Said::Known(0, 7),
        printed: &[],
        begun: Some((6, Some(1))),
    },
    Step {
        said: Said::Known(0, 8),
        printed: &[(6, 8, Some(1))],
        begun: None,
    },
];

// Two inputs, of which one waits for the other, and a third one, which isn't read.
pub(crate) const ADDED: &str = "input x;\ninput y;\ninput z;\nemit x + y over (0, 10];";

pub(crate) const ADDED_STEPS: &[Step] = &[
    Step {
        said: Said::Row(0, 0, 10, 1),
        printed: &[],
        begun: None,
    },
    Step {
        said: Said::Row(1, 0, 4, 2),
        printed: &[(0, 4, Some(3))],
        begun: None,
    },
    Step {
        said: Said::Known(1, 6),
        printed: &[],
        begun: Some((4, None)),
    },
    Step {
        said: Said::Row(1, 6, 10, 5),
        printed: &[(4, 6, None), (6, 10, Some(6))],
        begun: None,
    },
];

// An average on a grid, over one of definitions that are fused or not.
pub(crate) const AVERAGED: &str =
    "input x;\nlet y = x + 1;\nlet z = y - 1;\nemit avg(z[t-10:t]) over (0, 30] every 10;";

pub(crate) const AVERAGED_STEPS: &[Step] = &[
    Step {
        said: Said::Row(0, 0, 5, 4),
        printed: &[],
        begun: None,
    },
    // The row leaves the window after the grid point.
    Step {
        said: Said::Known(0, 10),
        printed: &[(0, 10, Some(4))],
        begun: None,
    },
    Step {
        said: Said::Row(0, 12, 16, 6),
        printed: &[],
        begun: None,
    },
    Step {
        said: Said::Row(0, 17, 19, 8),
        printed: &[],
        begun: None,
    },
    Step {
        said: Said::Finish,
        printed: &[(10, 20, Some(7)), (20, 30, None)],
        begun: None,
    },
];

// A reading of the past, of a value that goes on, ends, is said again, and ends by the next row.
pub(crate) const SHIFTED: &str = "input x;\nemit x[t-2] over (0, 10];";

pub(crate) const SHIFTED_STEPS: &[Step] = &[
    Step {
        said: Said::Value(0, 0, 7),
        printed: &[(0, 2, None)],
        begun: Some((2, Some(7))),
    },
    Step {
        said: Said::Known(0, 4),
        printed: &[],
        begun: Some((2, Some(7))),
    },
    Step {
        said: Said::Row(0, 0, 5, 7),
        printed: &[(2, 7, Some(7))],
        begun: None,
    },
    // The same value again is a snapshot of its own.
    Step {
        said: Said::Value(0, 5, 7),
        printed: &[],
        begun: Some((7, Some(7))),
    },
    Step {
        said: Said::Row(0, 8, 9, 1),
        printed: &[(7, 10, Some(7))],
        begun: None,
    },
    Step {
        said: Said::Finish,
        printed: &[],
        begun: None,
    },
];

// A reading of the future.
pub(crate) const AHEAD: &str = "input x;\nemit x[t+3] over (0, 10];";

pub(crate) const AHEAD_STEPS: &[Step] = &[
    Step {
        said: Said::Row(0, 0, 5, 1),
        printed: &[(0, 2, Some(1))],
        begun: None,
    },
    Step {
        said: Said::Row(0, 5, 8, 1),
        printed: &[(2, 5, Some(1))],
        begun: None,
    },
    Step {
        said: Said::Known(0, 9),
        printed: &[],
        begun: Some((5, None)),
    },
    Step {
        said: Said::Value(0, 12, 4),
        printed: &[(5, 9, None), (9, 10, Some(4))],
        begun: None,
    },
];

// An input that is known for ever.
pub(crate) const FOR_EVER_STEPS: &[Step] = &[
    Step {
        said: Said::Value(0, 0, 4),
        printed: &[],
        begun: Some((0, Some(4))),
    },
    Step {
        said: Said::Known(0, T),
        printed: &[(0, 30, Some(4))],
        begun: None,
    },
    Step {
        said: Said::Finish,
        printed: &[],
        begun: None,
    },
];

// The last ticks of all.
pub(crate) const LAST: &str = "input x;\nemit x over (3999999999999999998, 4000000000000000000];";

pub(crate) const LAST_STEPS: &[Step] = &[
    Step {
        said: Said::Row(0, T - 2, T - 1, 1),
        printed: &[(T - 2, T - 1, Some(1))],
        begun: None,
    },
    // The value is at the last tick alone.
    Step {
        said: Said::Value(0, T - 1, 5),
        printed: &[(T - 1, T, Some(5))],
        begun: None,
    },
];

// No input is read.
pub(crate) const CONSTANT: &str = "emit 3 over (0, 5];";

pub(crate) const CONSTANT_STEPS: &[Step] = &[Step {
    said: Said::Finish,
    printed: &[(0, 5, Some(3))],
    begun: None,
}];

// A grid over another one, whose periods have no common factor.
pub(crate) const NESTED: &str =
    "input x;\nlet y = sum(x[t-4:t]) every 2;\nemit max(y[t-6:t]) over (0, 12] every 3;";

pub(crate) const NESTED_STEPS: &[Step] = &[
    Step {
        said: Said::Row(0, 0, 3, 5),
        printed: &[],
        begun: None,
    },
    // The marks of the past leave the window after 3, so that the end of the first snapshot is sure.
    Step {
        said: Said::Value(0, 3, 1),
        printed: &[(0, 3, Some(6))],
        begun: None,
    },
    Step {
        said: Said::Known(0, 7),
        printed: &[(3, 6, Some(6))],
        begun: None,
    },
    Step {
        said: Said::Row(0, 3, 12, 1),
        printed: &[(6, 9, Some(6)), (9, 12, Some(1))],
        begun: None,
    },
];

// A definition with a span of its own: null is known before it, and after it.
pub(crate) const SPANNED: &str = "input x;\nlet y = x over (5, 8];\nemit y over (0, 12];";

pub(crate) const SPANNED_STEPS: &[Step] = &[
    Step {
        said: Said::Known(0, 2),
        printed: &[(0, 5, None)],
        begun: None,
    },
    Step {
        said: Said::Row(0, 4, 7, 9),
        printed: &[(5, 7, Some(9))],
        begun: None,
    },
    Step {
        said: Said::Known(0, 8),
        printed: &[(7, 8, None), (8, 12, None)],
        begun: None,
    },
];

// An event as a feed has it.
pub(crate) fn event_of(said: &Said) -> Event {
    match said {
        Said::Row(input, start, end, value) => Event::Input {
            input: *input,
            update: Update::Row {
                start: *start,
                end: *end,
                value: Some(*value),
            },
        },
        Said::Value(input, start, value) => Event::Input {
            input: *input,
            update: Update::Value {
                start: *start,
                value: *value,
            },
        },
        Said::Known(input, watermark) => Event::Input {
            input: *input,
            update: Update::KnownUpTo {
                watermark: *watermark,
            },
        },
        Said::Finish => Event::Finish,
    }
}

// The live engine of a query.
pub(crate) fn live_of(alloc: Global, text: &str, fuse: bool) -> Result<Live, Fail>
    ensures { IfOk result (λ live. IsLive live) }
{
    let core = core_of(alloc, text)?;
    let accepted = accept(alloc, core, fuse)?;
    Ok(Live::new(alloc, accepted)?)
}

// Takes an event, which is allowed.
pub(crate) fn take(live: &mut Live, said: &Said) -> Result<(), Fail>
    requires { IsLive live.old }
    ensures { IsLive live.new }
{
    match live.take(event_of(said)) {
        Ok(()) => Ok(()),
        Err(_) => Err("not taken".into()),
    }
}

// Adds the snapshots that are final, at most 100.
pub(crate) fn drain(live: &mut Live, pieces: &mut Vec<Piece>) -> Result<(), Fail>
    requires { IsLive live.old }
    ensures { IsLive live.new }
{
    for _ in 0..100 {
        match live.next()? {
            Some(snap) => pieces.push(piece_of(snap))?,
            None => return Ok(()),
        }
    }
    Ok(())
}
