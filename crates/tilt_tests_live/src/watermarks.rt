// Watermarks by example, worked out by hand, and the text of faults.
use std::test::Fail;
use tilt_feed::{Event, EventFault, Update};
use tilt_feed_line::Line;
use tilt_watermarks::{Options, TakeError, TakeFault, Watermarks};

const OPTIONS: Options = Options {
    idle: Some(10),
    ahead: Some(50),
    lateness: None,
};

const LATE: Options = Options {
    idle: None,
    ahead: None,
    lateness: Some(10),
};

const ROW: Update = Update::Row {
    start: 0,
    end: 100,
    value: Some(5),
};

// The line that a value of an input starts.
fn value_line(input: u32, start: i64) -> Line {
    Line::Update {
        input,
        update: Update::Value { start, value: 7 },
    }
}

// The event that a value of an input starts.
fn value_event(input: u32, start: i64) -> Event {
    Event::Input {
        input,
        update: Update::Value { start, value: 7 },
    }
}

// The event that an input is known up to a tick.
fn known(input: u32, watermark: i64) -> Event {
    Event::Input {
        input,
        update: Update::KnownUpTo { watermark },
    }
}

#[test]
fn silent_inputs_follow(rt: HostRuntime) -> Result<(), Fail> {
    let mut watermarks = Watermarks::new(rt.alloc(), OPTIONS, 3)?;
    let mut events = Vec::new(rt.alloc());
    let row = Line::Update {
        input: 0,
        update: ROW,
    };
    watermarks.take(row, &mut events)?;
    watermarks.take(Line::AllKnownUpTo { watermark: 95 }, &mut events)?;
    watermarks.take(Line::Finish, &mut events)?;
    let expected = [
        Event::Input {
            input: 0,
            update: ROW,
        },
        known(1, 90),
        known(2, 90),
        known(1, 95),
        known(2, 95),
        Event::Finish,
    ];
    assert_eq!(rt; events.as_slice(), expected.as_slice());
    Ok(())
}

#[test]
fn lines_that_are_not_taken_change_nothing(rt: HostRuntime) -> Result<(), Fail> {
    let mut watermarks = Watermarks::new(rt.alloc(), OPTIONS, 2)?;
    let mut events = Vec::new(rt.alloc());
    watermarks.take(value_line(0, 1000), &mut events)?;
    let late = TakeError::Fault(TakeFault::NotAllowed(EventFault::Late));
    assert_eq!(rt; watermarks.take(value_line(1, 990), &mut events), Err(late));
    let far = TakeError::Fault(TakeFault::Ahead);
    assert_eq!(rt; watermarks.take(value_line(1, 1052), &mut events), Err(far));
    assert_eq!(rt; watermarks.fault(value_line(1, 1051)), None);
    assert_eq!(rt; events.len(), 2);
    Ok(())
}

// Each input gets its own lines in order. The value from 16 gives its input the watermark 7, and that from 30 gives the other one 21.
#[test]
fn late_lines_come_out_in_order(rt: HostRuntime) -> Result<(), Fail> {
    let mut watermarks = Watermarks::new(rt.alloc(), LATE, 2)?;
    let mut events = Vec::new(rt.alloc());
    watermarks.take(value_line(0, 5), &mut events)?;
    watermarks.take(value_line(1, 30), &mut events)?;
    watermarks.take(value_line(0, 3), &mut events)?;
    assert_eq!(rt; watermarks.held(), 3);
    watermarks.take(value_line(0, 16), &mut events)?;
    assert_eq!(rt; watermarks.held(), 2);
    let overlap = TakeError::Fault(TakeFault::Overlap);
    assert_eq!(rt;
        watermarks.take(value_line(0, 16), &mut events),
        Err(overlap)
    );
    watermarks.take(Line::Finish, &mut events)?;
    let expected = [
        known(0, -4),
        known(1, 21),
        value_event(0, 3),
        value_event(0, 5),
        known(0, 7),
        value_event(0, 16),
        value_event(1, 30),
        Event::Finish,
    ];
    assert_eq!(rt; events.as_slice(), expected.as_slice());
    assert_eq!(rt; watermarks.held(), 0);
    Ok(())
}

// The lines of the test before, in a new process from the fourth on. What was held and handed on by then is as there.
#[test]
fn watermarks_go_on_from_what_was_kept(rt: HostRuntime) -> Result<(), Fail> {
    let mut first = Watermarks::new(rt.alloc(), LATE, 2)?;
    let mut events = Vec::new(rt.alloc());
    first.take(value_line(0, 5), &mut events)?;
    first.take(value_line(1, 30), &mut events)?;
    first.take(value_line(0, 3), &mut events)?;
    let kept = first.kept(rt.alloc())?;
    assert_eq!(rt; kept.greatest, Some(21));
    assert_eq!(rt; kept.latest, Some(31));
    let mut watermarks = Watermarks::resume(rt.alloc(), LATE, &kept)?;
    assert_eq!(rt; watermarks.held(), 3);
    events.clear();
    watermarks.take(value_line(0, 16), &mut events)?;
    watermarks.take(Line::Finish, &mut events)?;
    let expected = [
        value_event(0, 3),
        value_event(0, 5),
        known(0, 7),
        value_event(0, 16),
        value_event(1, 30),
        Event::Finish,
    ];
    assert_eq!(rt; events.as_slice(), expected.as_slice());
    Ok(())
}

#[test]
fn faults_say_what_is_wrong(rt: HostRuntime) -> Result<(), Fail> {
    let late = TakeError::Fault(TakeFault::NotAllowed(EventFault::Late));
    let text = format!(in rt.alloc();
        "{late}; {}; {}; {}",
        TakeFault::Overlap,
        TakeFault::Ahead,
        TakeError::OutOfMemory
    )?;
    assert_eq!(rt;
        text.as_str(),
        "it is before the watermark; it overlaps one that is held; it is too far ahead; out of memory"
    );
    Ok(())
}
