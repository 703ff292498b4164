// Feeds of queries that were worked out by hand.
ghost use Rattle.tilt_live.specs.Lives.{IsLive};

use crate::worked::{
    ADDED, ADDED_STEPS, AHEAD, AHEAD_STEPS, AVERAGED, AVERAGED_STEPS, CONSTANT, CONSTANT_STEPS,
    COUNTED, COUNTED_STEPS, FOR_EVER_STEPS, ITSELF, ITSELF_STEPS, LAST, LAST_STEPS, NESTED,
    NESTED_STEPS, SHIFTED, SHIFTED_STEPS, SPANNED, SPANNED_STEPS, Said, Step, drain, event_of,
    live_of, take,
};
use std::alloc::Global;
use std::process::Abort;
use std::test::Fail;
use tilt_engine::TakeError;
use tilt_feed::EventFault;
use tilt_live::Live;
use tilt_testing::Piece;

// What comes out after an event is what is wanted.
fn goes_on(alloc: Global, rt: &impl Abort, live: &mut Live, step: &Step) -> Result<(), Fail>
    requires { IsLive live.old }
    ensures { IsLive live.new }
{
    take(live, &step.said)?;
    let mut pieces = Vec::new(alloc);
    drain(live, &mut pieces)?;
    assert_eq!(rt; pieces.as_slice(), step.printed);
    let begun = live.begun()?;
    assert_eq!(rt; begun, step.begun);
    Ok(())
}

// So it is after each event, with fusion and without.
fn run(alloc: Global, rt: &impl Abort, text: &str, steps: &[Step]) -> Result<(), Fail> {
    for fuse in [true, false] {
        run_one(alloc, rt, text, fuse, steps)?;
    }
    Ok(())
}

fn run_one(
    alloc: Global,
    rt: &impl Abort,
    text: &str,
    fuse: bool,
    steps: &[Step],
) -> Result<(), Fail> {
    let mut live = live_of(alloc, text, fuse)?;
    for step in steps {
        goes_on(alloc, rt, &mut live, step)?;
    }
    Ok(())
}

#[test]
fn an_input_itself(rt: HostRuntime) -> Result<(), Fail> {
    run(rt.alloc(), &rt, ITSELF, ITSELF_STEPS)
}

#[test]
fn rows_in_a_window(rt: HostRuntime) -> Result<(), Fail> {
    run(rt.alloc(), &rt, COUNTED, COUNTED_STEPS)
}

#[test]
fn an_input_that_is_ahead(rt: HostRuntime) -> Result<(), Fail> {
    run(rt.alloc(), &rt, ADDED, ADDED_STEPS)
}

#[test]
fn an_average_on_a_grid(rt: HostRuntime) -> Result<(), Fail> {
    run(rt.alloc(), &rt, AVERAGED, AVERAGED_STEPS)
}

#[test]
fn a_reading_of_the_past(rt: HostRuntime) -> Result<(), Fail> {
    run(rt.alloc(), &rt, SHIFTED, SHIFTED_STEPS)
}

#[test]
fn a_reading_of_the_future(rt: HostRuntime) -> Result<(), Fail> {
    run(rt.alloc(), &rt, AHEAD, AHEAD_STEPS)
}

#[test]
fn an_input_that_is_known_for_ever(rt: HostRuntime) -> Result<(), Fail> {
    run(rt.alloc(), &rt, ITSELF, FOR_EVER_STEPS)
}

#[test]
fn the_last_ticks(rt: HostRuntime) -> Result<(), Fail> {
    run(rt.alloc(), &rt, LAST, LAST_STEPS)
}

#[test]
fn a_query_without_inputs(rt: HostRuntime) -> Result<(), Fail> {
    run(rt.alloc(), &rt, CONSTANT, CONSTANT_STEPS)
}

#[test]
fn a_grid_over_a_grid(rt: HostRuntime) -> Result<(), Fail> {
    run(rt.alloc(), &rt, NESTED, NESTED_STEPS)
}

#[test]
fn a_definition_with_a_span(rt: HostRuntime) -> Result<(), Fail> {
    run(rt.alloc(), &rt, SPANNED, SPANNED_STEPS)
}

#[test]
fn an_event_that_is_late(rt: HostRuntime) -> Result<(), Fail> {
    let mut live = live_of(rt.alloc(), ITSELF, true)?;
    take(&mut live, &Said::Row(0, 0, 10, 5))?;
    let late = live.take(event_of(&Said::Row(0, 9, 12, 5)));
    assert!(&rt; late == Err(TakeError::Fault(EventFault::Late)));
    take(&mut live, &Said::Finish)?;
    let finished = live.take(event_of(&Said::Finish));
    assert!(&rt; finished == Err(TakeError::Fault(EventFault::Finished)));
    Ok(())
}

// The sum of the last three values.
pub(crate) const SUMMED: &str = "input x;\nemit sum(x[t-3:t]) over (0, 100000];";

// How many of the last hundred averages there are, each over sixty ticks.
const MANY_AVERAGES: &str =
    "input x;\nlet m = avg(x[t-60:t]) every 60;\nemit count(m[t-6000:t]) over (0, 60000] every 60;";

// A live engine after a row of one tick whose value is its start, a number of ticks above 0: what comes out, and how much is kept.
pub(crate) fn takes_row(
    alloc: Global,
    rt: &impl Abort,
    live: &mut Live,
    row: u32,
    expected: Option<Piece>,
) -> Result<(), Fail>
    requires { IsLive live.old }
    ensures { IsLive live.new }
{
    let start = i64::from(row);
    take(live, &Said::Row(0, start, start + 1, start))?;
    let mut pieces = Vec::new(alloc);
    drain(live, &mut pieces)?;
    match expected {
        Some(piece) => assert_eq!(rt; pieces.as_slice(), [piece].as_slice()),
        None => assert!(rt; pieces.is_empty()),
    }
    assert!(rt; live.held() <= 1024);
    Ok(())
}

// The sum of the last three values, on the tick of the last of them.
pub(crate) fn last_three(row: u32) -> Option<Piece> {
    let value = i64::from(row);
    let sum = value + (value - 1).max(0) + (value - 2).max(0);
    Some((value, value + 1, Some(sum)))
}

// How many averages there are by then, after each sixty ticks.
fn last_hundred(row: u32) -> Option<Piece> {
    let end = i64::from(row) + 1;
    if end % 60 == 0 {
        Some((end - 60, end, Some((end / 60).min(100))))
    } else {
        None
    }
}

// Rows of which each ends a snapshot.
fn run_sums(alloc: Global, rt: &impl Abort, fuse: bool) -> Result<(), Fail> {
    let mut live = live_of(alloc, SUMMED, fuse)?;
    for row in 0..4000 {
        takes_row(alloc, rt, &mut live, row, last_three(row))?;
    }
    Ok(())
}

// Rows of which each sixtieth ends a snapshot.
fn run_averages(alloc: Global, rt: &impl Abort, fuse: bool) -> Result<(), Fail> {
    let mut live = live_of(alloc, MANY_AVERAGES, fuse)?;
    for row in 0..12000 {
        takes_row(alloc, rt, &mut live, row, last_hundred(row))?;
    }
    Ok(())
}

#[test]
fn old_rows_are_let_go(rt: HostRuntime) -> Result<(), Fail> {
    run_sums(rt.alloc(), &rt, true)?;
    run_sums(rt.alloc(), &rt, false)
}

#[test]
fn old_rows_are_let_go_before_their_averages(rt: HostRuntime) -> Result<(), Fail> {
    run_averages(rt.alloc(), &rt, true)?;
    run_averages(rt.alloc(), &rt, false)
}
