// Engines that are left, and other ones that go on in their place. What comes out is what it would be if no engine was left.
ghost use Rattle.std.specs.Prelude.{IfOk};
ghost use Rattle.tilt_live.specs.Lives.{IsLive};

use crate::feeds::{SUMMED, last_three, takes_row};
use crate::worked::{
    ADDED, ADDED_STEPS, AHEAD, AHEAD_STEPS, AVERAGED, AVERAGED_STEPS, CONSTANT, CONSTANT_STEPS,
    COUNTED, COUNTED_STEPS, FOR_EVER_STEPS, ITSELF, ITSELF_STEPS, LAST, LAST_STEPS, NESTED,
    NESTED_STEPS, SHIFTED, SHIFTED_STEPS, SPANNED, SPANNED_STEPS, Said, Step, drain, event_of,
    live_of,
};
use std::alloc::Global;
use std::process::Abort;
use std::test::Fail;
use tilt_base::{Cell, T};
use tilt_compiler::accept;
use tilt_engine::{FedRows, TakeError};
use tilt_feed::{Edge, Event, EventFault, Update};
use tilt_feed_line::Line;
use tilt_input_state::InputState;
use tilt_live::Live;
use tilt_stream::Rows;
use tilt_testing::{Piece, core_of};
use tilt_watermarks::{Options, Watermarks};

// An engine, and what another one needs in its place: the rows of the feed, and whether that is finished. The code of the other one is
// fused if that of the first isn't.
#[derive(Drop)]
struct Fed {
    alloc: Global,
    text: &'static str,
    live: Live,
    rows: FedRows,
    finished: bool,
    fuse: bool,
    // The snapshots that engines have returned since the last event.
    pieces: Vec<Piece>,
}

// Before which steps of a feed the engine is left, and how many times in a row.
#[derive(Clone, Copy)]
struct Places {
    first: usize,
    end: usize,
    times: u32,
}

// A line, whether the watermarks take it, and what comes out after it.
struct LineStep {
    line: Line,
    is_taken: bool,
    printed: &'static [Piece],
    begun: Option<(i64, Cell)>,
}

// The feeds that are worked out beside this file.
const WORKED: &[(&str, &[Step])] = &[
    (ITSELF, ITSELF_STEPS),
    (COUNTED, COUNTED_STEPS),
    (ADDED, ADDED_STEPS),
    (AVERAGED, AVERAGED_STEPS),
    (SHIFTED, SHIFTED_STEPS),
    (AHEAD, AHEAD_STEPS),
    (ITSELF, FOR_EVER_STEPS),
    (LAST, LAST_STEPS),
    (NESTED, NESTED_STEPS),
    (CONSTANT, CONSTANT_STEPS),
    (SPANNED, SPANNED_STEPS),
];

// Equal values of rows that touch are snapshots of their own.
const EQUAL_STEPS: &[Step] = &[
    Step {
        said: Said::Row(0, 0, 10, 5),
        printed: &[(0, 10, Some(5))],
        begun: None,
    },
    Step {
        said: Said::Row(0, 10, 20, 5),
        printed: &[(10, 20, Some(5))],
        begun: None,
    },
    Step {
        said: Said::Value(0, 20, 5),
        printed: &[],
        begun: Some((20, Some(5))),
    },
    Step {
        said: Said::Row(0, 20, 25, 5),
        printed: &[(20, 25, Some(5))],
        begun: None,
    },
    Step {
        said: Said::Row(0, 25, 27, 5),
        printed: &[(25, 27, Some(5))],
        begun: None,
    },
    Step {
        said: Said::Finish,
        printed: &[(27, 30, None)],
        begun: None,
    },
];

// An open row, which ends at the watermark when the feed is finished.
const OPEN_STEPS: &[Step] = &[
    Step {
        said: Said::Value(0, 3, 7),
        printed: &[(0, 3, None)],
        begun: Some((3, Some(7))),
    },
    Step {
        said: Said::Known(0, 9),
        printed: &[],
        begun: Some((3, Some(7))),
    },
    Step {
        said: Said::Finish,
        printed: &[(3, 9, Some(7)), (9, 30, None)],
        begun: None,
    },
];

// Rows go on after the end of the output.
const ENDED: &str = "input x;\nemit x over (0, 8];";

const ENDED_STEPS: &[Step] = &[
    Step {
        said: Said::Row(0, 0, 10, 5),
        printed: &[(0, 8, Some(5))],
        begun: None,
    },
    Step {
        said: Said::Row(0, 12, 15, 1),
        printed: &[],
        begun: None,
    },
    Step {
        said: Said::Value(0, 15, 2),
        printed: &[],
        begun: None,
    },
    Step {
        said: Said::Finish,
        printed: &[],
        begun: None,
    },
];

// A grid with an offset, and windows that end after its points.
const OFFSET: &str = "input x;\nemit sum(x[t-4:t+1]) over (2, 22] every 5 from 2;";

const OFFSET_STEPS: &[Step] = &[
    Step {
        said: Said::Row(0, 0, 5, 4),
        printed: &[],
        begun: None,
    },
    // The window on (3, 8] has both rows, and the next one neither of them.
    Step {
        said: Said::Row(0, 6, 8, 3),
        printed: &[(2, 7, Some(7))],
        begun: None,
    },
    Step {
        said: Said::Value(0, 8, 3),
        printed: &[],
        begun: None,
    },
    // The row may go on, and then the sum at the next point is the same one.
    Step {
        said: Said::Known(0, 13),
        printed: &[],
        begun: Some((7, Some(3))),
    },
    Step {
        said: Said::Row(0, 8, 15, 3),
        printed: &[(7, 12, Some(3))],
        begun: None,
    },
    Step {
        said: Said::Row(0, 15, 16, 1),
        printed: &[],
        begun: None,
    },
    Step {
        said: Said::Known(0, 18),
        printed: &[(12, 17, Some(4))],
        begun: None,
    },
    Step {
        said: Said::Finish,
        printed: &[(17, 22, None)],
        begun: None,
    },
];

// A grid that reads ahead of another one. `y` is 3 on (-3, 13], 1 on (13, 17], and null on (17, 21].
const GRID_AHEAD: &str =
    "input x;\nlet y = last(x[t-2:t+2]) every 4 from 1;\nemit y[t+3] - y over (1, 16] every 3 from 1;";

const GRID_AHEAD_STEPS: &[Step] = &[
    Step {
        said: Said::Row(0, 0, 2, 4),
        printed: &[],
        begun: None,
    },
    Step {
        said: Said::Row(0, 2, 6, 3),
        printed: &[],
        begun: None,
    },
    Step {
        said: Said::Value(0, 8, 3),
        printed: &[],
        begun: None,
    },
    Step {
        said: Said::Known(0, 11),
        printed: &[(1, 4, Some(0))],
        begun: None,
    },
    Step {
        said: Said::Row(0, 8, 12, 3),
        printed: &[],
        begun: None,
    },
    Step {
        said: Said::Row(0, 15, 16, 1),
        printed: &[(4, 7, Some(0)), (7, 10, Some(0))],
        begun: None,
    },
    Step {
        said: Said::Known(0, 18),
        printed: &[],
        begun: None,
    },
    Step {
        said: Said::Finish,
        printed: &[(10, 13, Some(-2)), (13, 16, None)],
        begun: None,
    },
];

// The watermark of an input is ten ticks behind the largest end of its lines.
const LATE: Options = Options {
    idle: None,
    ahead: None,
    lateness: Some(10),
};

const HELD: &str = "input x;\nemit x over (0, 40];";

const HELD_STEPS: &[LineStep] = &[
    LineStep {
        line: Line::Update {
            input: 0,
            update: Update::Value { start: 5, value: 7 },
        },
        is_taken: true,
        printed: &[],
        begun: None,
    },
    LineStep {
        line: Line::Update {
            input: 0,
            update: Update::Value { start: 3, value: 8 },
        },
        is_taken: true,
        printed: &[],
        begun: None,
    },
    // The watermark is 8, and both values are before it.
    LineStep {
        line: Line::Update {
            input: 0,
            update: Update::Row {
                start: 16,
                end: 18,
                value: Some(9),
            },
        },
        is_taken: true,
        printed: &[(0, 3, None), (3, 5, Some(8))],
        begun: Some((5, Some(7))),
    },
    // It overlaps the row that is held.
    LineStep {
        line: Line::Update {
            input: 0,
            update: Update::Row {
                start: 17,
                end: 20,
                value: Some(1),
            },
        },
        is_taken: false,
        printed: &[],
        begun: Some((5, Some(7))),
    },
    // It is before the watermark.
    LineStep {
        line: Line::Update {
            input: 0,
            update: Update::NoValue { start: 7 },
        },
        is_taken: false,
        printed: &[],
        begun: Some((5, Some(7))),
    },
    LineStep {
        line: Line::Update {
            input: 0,
            update: Update::NoValue { start: 12 },
        },
        is_taken: true,
        printed: &[],
        begun: Some((5, Some(7))),
    },
    LineStep {
        line: Line::Finish,
        is_taken: true,
        printed: &[
            (5, 12, Some(7)),
            (12, 16, None),
            (16, 18, Some(9)),
            (18, 40, None),
        ],
        begun: None,
    },
];

// A query before its first event.
fn start(alloc: Global, text: &'static str, fuse: bool) -> Result<Fed, Fail>
    ensures { IfOk result (λ fed. IsLive fed.live) }
{
    let live = live_of(alloc, text, fuse)?;
    let rows = FedRows::new(alloc, live.inputs().len())?;
    Ok(Fed {
        alloc,
        text,
        live,
        rows,
        finished: false,
        fuse,
        pieces: Vec::new(alloc),
    })
}

// The engine of a query that goes on after a tick.
fn resumed(fed: &Fed, from: i64, finished: bool, inputs: &[InputState]) -> Result<Live, Fail>
    ensures { IfOk result (λ live. IsLive live) }
{
    let core = core_of(fed.alloc, fed.text)?;
    let accepted = accept(fed.alloc, core, fed.fuse)?;
    let domain = accepted.domain();
    if inputs.len() != accepted.core().inputs().len() {
        return Err("another number of inputs".into());
    }
    if from < domain.start || domain.end < from {
        return Err("a tick outside of the domain".into());
    }
    Ok(Live::resume(fed.alloc, accepted, from, finished, inputs)?)
}

// What has come out since the last event.
fn comes_out(
    rt: &impl Abort,
    fed: &mut Fed,
    printed: &[Piece],
    begun: Option<(i64, Cell)>,
) -> Result<(), Fail>
    requires { IsLive fed.old.live }
    ensures { IsLive fed.new.live }
{
    drain(&mut fed.live, &mut fed.pieces)?;
    assert_eq!(rt; fed.pieces.as_slice(), printed);
    fed.pieces.clear();
    let found = fed.live.begun()?;
    assert_eq!(rt; found, begun);
    Ok(())
}

// Leaves the engine, once it has returned all that may be printed. The other one returns nothing more, and the same has begun. Returns how
// many rows were left.
fn leave(rt: &impl Abort, fed: &mut Fed) -> Result<usize, Fail>
    requires { IsLive fed.old.live }
    ensures { IsLive fed.new.live }
{
    drain(&mut fed.live, &mut fed.pieces)?;
    let first = fed.live.first_read();
    fed.rows.forget(first)?;
    let inputs = fed.rows.inputs(fed.alloc, first)?;
    let from = fed.live.resume_tick();
    let begun = fed.live.begun()?;
    fed.fuse = !fed.fuse;
    fed.live = resumed(fed, from, fed.finished, &inputs)?;
    fed.rows = FedRows::of(fed.alloc, &inputs)?;
    has_nothing_new(rt, &mut fed.live, begun)?;
    Ok(rows_of(&inputs))
}

// An engine that returns nothing more, of which this has begun.
fn has_nothing_new(rt: &impl Abort, live: &mut Live, begun: Option<(i64, Cell)>) -> Result<(), Fail>
    requires { IsLive live.old }
    ensures { IsLive live.new }
{
    let next = live.next()?;
    assert!(rt; next.is_none());
    let found = live.begun()?;
    assert_eq!(rt; found, begun);
    Ok(())
}

// How many closed rows inputs have.
fn rows_of(inputs: &[InputState]) -> usize {
    let mut count = 0usize;
    for input in inputs {
        count = count.saturating_add(input.rows().len());
    }
    count
}

// Leaves the engine as often as it is to be left before a step.
fn leave_before(rt: &impl Abort, fed: &mut Fed, places: Places, step: usize) -> Result<(), Fail>
    requires { IsLive fed.old.live }
    ensures { IsLive fed.new.live }
{
    if step < places.first || places.end <= step {
        return Ok(());
    }
    for _ in 0..places.times {
        leave(rt, fed)?;
    }
    Ok(())
}

// Takes an event that is allowed.
fn take_event(fed: &mut Fed, event: Event) -> Result<(), Fail>
    requires { IsLive fed.old.live }
    ensures { IsLive fed.new.live }
{
    fed.live.take(event)?;
    fed.rows.take(event)?;
    fed.finished = event == Event::Finish;
    Ok(())
}

// Takes an event, and what comes out is what is wanted.
fn goes_on(rt: &impl Abort, fed: &mut Fed, step: &Step) -> Result<(), Fail>
    requires { IsLive fed.old.live }
    ensures { IsLive fed.new.live }
{
    take_event(fed, event_of(&step.said))?;
    comes_out(rt, fed, step.printed, step.begun)
}

// Each event, with an engine that is left at these places.
fn run_left(rt: &impl Abort, mut fed: Fed, steps: &[Step], places: Places) -> Result<(), Fail>
    requires { IsLive fed.live }
{
    for (number, step) in steps.iter().enumerate() {
        leave_before(rt, &mut fed, places, number)?;
        goes_on(rt, &mut fed, step)?;
    }
    leave_before(rt, &mut fed, places, steps.len())
}

// Each event, with an engine that is left at each place, once and twice.
fn run_left_always(
    alloc: Global,
    rt: &impl Abort,
    text: &'static str,
    steps: &[Step],
    fuse: bool,
) -> Result<(), Fail> {
    for times in 1..=2 {
        let places = Places {
            first: 0,
            end: usize::MAX,
            times,
        };
        run_left(rt, start(alloc, text, fuse)?, steps, places)?;
    }
    Ok(())
}

// Each event, with an engine that is left at one place: before the first event, after each, and never.
fn run_left_once(
    alloc: Global,
    rt: &impl Abort,
    text: &'static str,
    steps: &[Step],
    fuse: bool,
) -> Result<(), Fail> {
    for first in 0..steps.len().saturating_add(2) {
        let places = Places {
            first,
            end: first.saturating_add(1),
            times: 1,
        };
        run_left(rt, start(alloc, text, fuse)?, steps, places)?;
    }
    Ok(())
}

// A feed with an engine that is left at all places, and at each.
fn run(alloc: Global, rt: &impl Abort, text: &'static str, steps: &[Step]) -> Result<(), Fail> {
    for fuse in [true, false] {
        run_left_always(alloc, rt, text, steps, fuse)?;
        run_left_once(alloc, rt, text, steps, fuse)?;
    }
    Ok(())
}

#[test]
fn worked_feeds_go_on(rt: HostRuntime) -> Result<(), Fail> {
    for (text, steps) in WORKED {
        run(rt.alloc(), &rt, text, steps)?;
    }
    Ok(())
}

#[test]
fn equal_neighbours_stay_two(rt: HostRuntime) -> Result<(), Fail> {
    run(rt.alloc(), &rt, ITSELF, EQUAL_STEPS)
}

#[test]
fn an_open_row_goes_on(rt: HostRuntime) -> Result<(), Fail> {
    run(rt.alloc(), &rt, ITSELF, OPEN_STEPS)
}

#[test]
fn nothing_comes_after_the_end(rt: HostRuntime) -> Result<(), Fail> {
    run(rt.alloc(), &rt, ENDED, ENDED_STEPS)
}

#[test]
fn a_grid_with_an_offset_goes_on(rt: HostRuntime) -> Result<(), Fail> {
    run(rt.alloc(), &rt, OFFSET, OFFSET_STEPS)
}

#[test]
fn a_grid_that_reads_ahead_goes_on(rt: HostRuntime) -> Result<(), Fail> {
    run(rt.alloc(), &rt, GRID_AHEAD, GRID_AHEAD_STEPS)
}

// An event that isn't allowed, because of this.
fn is_refused(rt: &impl Abort, fed: &mut Fed, said: &Said, fault: EventFault) -> Result<(), Fail>
    requires { IsLive fed.old.live }
    ensures { IsLive fed.new.live }
{
    let event = event_of(said);
    assert_eq!(rt; fed.live.fault(event), Some(fault));
    let taken = fed.live.take(event);
    assert!(rt; taken == Err(TakeError::Fault(fault)));
    Ok(())
}

#[test]
fn an_event_that_was_late_stays_late(rt: HostRuntime) -> Result<(), Fail> {
    let mut fed = start(rt.alloc(), ITSELF, true)?;
    for step in ITSELF_STEPS {
        goes_on(&rt, &mut fed, step)?;
        leave(&rt, &mut fed)?;
        let fault = if fed.finished {
            EventFault::Finished
        } else {
            EventFault::Late
        };
        is_refused(&rt, &mut fed, &Said::Row(0, 9, 12, 5), fault)?;
    }
    is_refused(&rt, &mut fed, &Said::Finish, EventFault::Finished)
}

// Nothing is known of the input of a finished feed, and nothing is needed.
#[test]
fn a_finished_feed_needs_no_rows(rt: HostRuntime) -> Result<(), Fail> {
    let alloc = rt.alloc();
    let mut fed = start(alloc, ITSELF, true)?;
    let edge = Edge {
        open_row: None,
        watermark: -T,
    };
    let unknown = InputState::new(Rows::new(alloc), edge).ok_or("no input")?;
    fed.live = resumed(&fed, 30, true, &[unknown])?;
    comes_out(&rt, &mut fed, &[], None)?;
    is_refused(&rt, &mut fed, &Said::Finish, EventFault::Finished)
}

// A row of one tick. Of those that are kept beside the engine, the next sum reads two.
fn goes_on_long(rt: &impl Abort, fed: &mut Fed, row: u32) -> Result<(), Fail>
    requires { IsLive fed.old.live }
    ensures { IsLive fed.new.live }
{
    takes_row(fed.alloc, rt, &mut fed.live, row, last_three(row))?;
    let start = i64::from(row);
    fed.rows
        .take(event_of(&Said::Row(0, start, start + 1, start)))?;
    fed.rows.forget(fed.live.first_read())?;
    if row % 1500 == 1499 {
        let left = leave(rt, fed)?;
        assert_eq!(rt; left, 2);
    }
    Ok(())
}

#[test]
fn few_rows_are_left_of_many(rt: HostRuntime) -> Result<(), Fail> {
    let mut fed = start(rt.alloc(), SUMMED, true)?;
    for row in 0..4000 {
        goes_on_long(&rt, &mut fed, row)?;
    }
    Ok(())
}

// Takes events that are allowed.
fn take_events(fed: &mut Fed, events: &[Event]) -> Result<(), Fail>
    requires { IsLive fed.old.live }
    ensures { IsLive fed.new.live }
{
    for event in events {
        take_event(fed, *event)?;
    }
    Ok(())
}

// Takes a line, and what comes out is what is wanted.
fn line_goes_on(
    rt: &impl Abort,
    fed: &mut Fed,
    watermarks: &mut Watermarks,
    step: &LineStep,
) -> Result<(), Fail>
    requires { IsLive fed.old.live }
    ensures { IsLive fed.new.live }
{
    let mut events = Vec::new(fed.alloc);
    let is_taken = watermarks.take(step.line, &mut events).is_ok();
    assert_eq!(rt; is_taken, step.is_taken);
    take_events(fed, &events)?;
    comes_out(rt, fed, step.printed, step.begun)
}

// Leaves the engine and the watermarks, if this is the place for it.
fn leave_both_if(
    rt: &impl Abort,
    is_place: bool,
    fed: &mut Fed,
    watermarks: &mut Watermarks,
) -> Result<(), Fail>
    requires { IsLive fed.old.live }
    ensures { IsLive fed.new.live }
{
    if !is_place {
        return Ok(());
    }
    leave(rt, fed)?;
    *watermarks = resumed_watermarks(fed.alloc, watermarks)?;
    Ok(())
}

// Each line, with watermarks and an engine that are left after a number of lines.
fn run_lines(alloc: Global, rt: &impl Abort, place: usize) -> Result<(), Fail> {
    let mut fed = start(alloc, HELD, true)?;
    let mut watermarks = Watermarks::new(alloc, LATE, 1)?;
    for (number, step) in HELD_STEPS.iter().enumerate() {
        leave_both_if(rt, number == place, &mut fed, &mut watermarks)?;
        line_goes_on(rt, &mut fed, &mut watermarks, step)?;
    }
    Ok(())
}

// Other watermarks that go on in the place of these.
fn resumed_watermarks(alloc: Global, watermarks: &Watermarks) -> Result<Watermarks, Fail> {
    let kept = watermarks.kept(alloc)?;
    Ok(Watermarks::resume(alloc, watermarks.options(), &kept)?)
}

#[test]
fn lines_that_are_held_go_on(rt: HostRuntime) -> Result<(), Fail> {
    for place in 0..HELD_STEPS.len() {
        run_lines(rt.alloc(), &rt, place)?;
    }
    Ok(())
}
