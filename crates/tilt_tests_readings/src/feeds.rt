// Lines of readings, as the events of a feed. The rows are those that `tilt-data series` writes for the files of DATA.md; the events
// between them were worked out by hand.
use std::alloc::Global;
use std::test::Fail;
use tilt_base::T;
use tilt_conventions::{Convention, Options, Ties, TurnFault};
use tilt_feed::{Event, Update};
use tilt_lexer::Name;
use tilt_reading_feed::{FeedFault, ReadingFeed, TakeError};
use tilt_reading_lines::{InputReading, Moments, ReadingReader, Rules, Source, Titles};
use tilt_readings::{Clock, Closed};

// Ticks of a second from 2026-03-01T00:00:00Z on.
const CLOCK: Clock = Clock {
    origin: 1772323200000000000,
    length: 1_000_000_000,
    closed: Closed::Left,
};

const HOLD: Options = Options {
    convention: Convention::Hold { max_age: None },
    ties: Ties::Refuse,
};

const TEN: Options = Options {
    convention: Convention::Hold { max_age: Some(10) },
    ties: Ties::Refuse,
};

const MINUTE: Options = Options {
    convention: Convention::Hold { max_age: Some(60) },
    ties: Ties::Refuse,
};

const FIRST: Options = Options {
    convention: Convention::Hold { max_age: None },
    ties: Ties::First,
};

const LAST: Options = Options {
    convention: Convention::Event,
    ties: Ties::Last,
};

// The lines of `readings.csv`.
const WIDE_LINES: &[&[u8]] = &[
    b"2026-03-01T06:00:00Z,20.5,3",
    b"2026-03-01T06:00:05Z,20.75,4",
    b"2026-03-01T06:00:10Z,,5",
    b"2026-03-01T06:00:12.5Z,21,6",
    b"2026-03-01T06:00:31Z,21.5,7",
];

// Those of `tall.csv`, whose stations are the inputs here, and a time alone.
const TALL_LINES: &[&[u8]] = &[
    b"2026-03-01T00:00:00Z,north,temp,20.5",
    b"2026-03-01T00:00:00Z,south,temp,17.5",
    b"2026-03-01T00:01:00Z,north,temp,21.5",
    b"2026-03-01T00:01:00Z,south,temp,18.5",
    b"2026-03-01T00:02:00Z,,temp,",
];

// Events of an input.
fn value(input: u32, start: i64, value: i64) -> Event {
    let update = Update::Value { start, value };
    Event::Input { input, update }
}

fn no_value(input: u32, start: i64) -> Event {
    let update = Update::NoValue { start };
    Event::Input { input, update }
}

fn known(input: u32, watermark: i64) -> Event {
    let update = Update::KnownUpTo { watermark };
    Event::Input { input, update }
}

fn row(input: u32, start: i64, end: i64, value: i64) -> Event {
    let update = Update::Row {
        start,
        end,
        value: Some(value),
    };
    Event::Input { input, update }
}

// A reading with a value.
fn reading(input: u32, tick: i64, value: i64) -> InputReading {
    InputReading {
        input,
        tick,
        value: Some(value),
    }
}

// An input with this name and scale.
fn add_source(
    alloc: Global,
    name: &[u8],
    scale: u64,
    sources: &mut Vec<Source>,
) -> Result<(), Fail> {
    let name = Name::read(alloc, name)?.ok_or("a name was expected")?;
    sources.push(Source::new(name, scale.max(1)))?;
    Ok(())
}

// Reads lines into the events of a feed, and ends it.
fn read_all(
    alloc: Global,
    header: &[u8],
    titles: &Titles,
    sources: &[Source],
    lines: &[&[u8]],
    feed: &mut ReadingFeed,
    events: &mut Vec<Event>,
) -> Result<(), Fail> {
    if sources.len() > 100 {
        return Err("too many sources".into());
    }
    let rules = Rules::new(Moments::Dates, None, CLOCK, b'.', Vec::new(alloc), false);
    let mut reader = ReadingReader::new(alloc, b',');
    let columns = reader.read_header(header, titles, sources)?;
    let mut readings = Vec::new(alloc);
    for line in lines {
        let known = reader.read_line(line, &columns, &rules, sources, &mut readings)?;
        feed.take(&readings, known, events)?;
    }
    feed.finish(events)?;
    Ok(())
}

// `tilt-data series` makes 21600,21605,2050 21605,21610,2075 21610,21612, 21612,21631,2100 and 21631,21632,2150 of `temp`. Of `power` it
// makes with `--max-age 10s` 21600,21605,3 21605,21610,4 21610,21612,5 21612,21622,6 and 21631,21641,7.
#[test]
fn a_column_of_each_input(rt: HostRuntime) -> Result<(), Fail> {
    let mut sources = Vec::new(rt.alloc());
    add_source(rt.alloc(), b"temp", 100, &mut sources)?;
    add_source(rt.alloc(), b"power", 1, &mut sources)?;
    let mut feed = ReadingFeed::new(rt.alloc(), &[HOLD, TEN])?;
    let mut events = Vec::new(rt.alloc());
    let time = b"time".as_slice().to_vec(rt.alloc())?;
    let titles = Titles::OfInputs { time };
    let header = b"time,temp,power";
    read_all(
        rt.alloc(),
        header,
        &titles,
        &sources,
        WIDE_LINES,
        &mut feed,
        &mut events,
    )?;
    let expected = [
        value(0, 21600, 2050),
        value(1, 21600, 3),
        value(0, 21605, 2075),
        value(1, 21605, 4),
        no_value(0, 21610),
        value(1, 21610, 5),
        value(0, 21612, 2100),
        value(1, 21612, 6),
        value(0, 21631, 2150),
        no_value(1, 21622),
        value(1, 21631, 7),
        no_value(1, 21641),
        Event::Finish,
    ];
    assert_eq!(rt; events.as_slice(), expected.as_slice());
    Ok(())
}

// `tilt-data series` makes 0,60,205 and 60,120,215 of the station north, and 0,60,175 and 60,120,185 of south.
#[test]
fn a_column_of_names(rt: HostRuntime) -> Result<(), Fail> {
    let mut sources = Vec::new(rt.alloc());
    add_source(rt.alloc(), b"north", 10, &mut sources)?;
    add_source(rt.alloc(), b"south", 10, &mut sources)?;
    let mut feed = ReadingFeed::new(rt.alloc(), &[MINUTE, MINUTE])?;
    let mut events = Vec::new(rt.alloc());
    let titles = Titles::Named {
        time: b"time".as_slice().to_vec(rt.alloc())?,
        name: b"station".as_slice().to_vec(rt.alloc())?,
        value: b"value".as_slice().to_vec(rt.alloc())?,
    };
    let header = b"time,station,sensor,value";
    read_all(
        rt.alloc(),
        header,
        &titles,
        &sources,
        TALL_LINES,
        &mut feed,
        &mut events,
    )?;
    let expected = [
        value(0, 0, 205),
        value(1, 0, 175),
        value(0, 60, 215),
        value(1, 60, 185),
        known(0, 120),
        known(1, 120),
        no_value(0, 120),
        no_value(1, 120),
        Event::Finish,
    ];
    assert_eq!(rt; events.as_slice(), expected.as_slice());
    Ok(())
}

// A tie at the second input: the first one hasn't taken its reading, so its tick 10 isn't late.
#[test]
fn a_line_is_taken_whole_or_not_at_all(rt: HostRuntime) -> Result<(), Fail> {
    let mut feed = ReadingFeed::new(rt.alloc(), &[FIRST, HOLD])?;
    let mut events = Vec::new(rt.alloc());
    feed.take(&[reading(0, 10, 1), reading(1, 10, 2)], None, &mut events)?;
    let line = [reading(0, 11, 3), reading(1, 10, 4)];
    let fault = FeedFault::NotTaken {
        input: 1,
        fault: TurnFault::Tie,
    };
    assert_eq!(rt;
        feed.take(&line, None, &mut events),
        Err(TakeError::Fault(fault))
    );
    assert_eq!(rt; events.len(), 2);
    feed.take(&[reading(0, 10, 5), reading(1, 11, 6)], None, &mut events)?;
    let expected = [value(0, 9, 1), value(1, 9, 2), value(1, 10, 6)];
    assert_eq!(rt; events.as_slice(), expected.as_slice());
    assert_eq!(rt; feed.skipped(0), Some(1));
    assert_eq!(rt; feed.skipped(1), Some(0));
    assert_eq!(rt; feed.skipped(2), None);
    Ok(())
}

// The first input is known up to 100, and stays so.
#[test]
fn all_inputs_are_known_up_to_a_tick(rt: HostRuntime) -> Result<(), Fail> {
    let mut feed = ReadingFeed::new(rt.alloc(), &[HOLD, HOLD])?;
    let mut events = Vec::new(rt.alloc());
    feed.take(&[reading(0, 100, 1)], None, &mut events)?;
    feed.take(&[], Some(50), &mut events)?;
    let late = FeedFault::NotTaken {
        input: 1,
        fault: TurnFault::Late,
    };
    assert_eq!(rt; feed.fault(&[reading(1, 50, 2)], None), Some(late));
    feed.take(&[reading(1, 51, 2)], None, &mut events)?;
    let expected = [value(0, 99, 1), known(1, 50), value(1, 50, 2)];
    assert_eq!(rt; events.as_slice(), expected.as_slice());
    Ok(())
}

// `power` of `readings.csv` as events, with ticks of five seconds. `--ties last` makes 4320,4321,3 4321,4322,4 4322,4323,6 and 4326,4327,7
// of it; the last one is handed on at the end.
#[test]
fn the_end_hands_on_what_waits(rt: HostRuntime) -> Result<(), Fail> {
    let mut feed = ReadingFeed::new(rt.alloc(), &[LAST])?;
    let mut events = Vec::new(rt.alloc());
    for (tick, value) in [(4321, 3), (4322, 4), (4323, 5), (4323, 6), (4327, 7)] {
        feed.take(&[reading(0, tick, value)], None, &mut events)?;
    }
    feed.finish(&mut events)?;
    let expected = [
        known(0, 4320),
        row(0, 4320, 4321, 3),
        row(0, 4321, 4322, 4),
        row(0, 4322, 4323, 6),
        known(0, 4326),
        row(0, 4326, 4327, 7),
        Event::Finish,
    ];
    assert_eq!(rt; events.as_slice(), expected.as_slice());
    assert_eq!(rt; feed.skipped(0), Some(1));
    let finished = Err(TakeError::Fault(FeedFault::Finished));
    assert_eq!(rt; feed.finish(&mut events), finished);
    assert_eq!(rt; feed.take(&[], None, &mut events), finished);
    assert_eq!(rt; events.len(), 7);
    Ok(())
}

// The same feed in two parts, between two readings of one tick: the second one goes on with the reading that waits.
#[test]
fn a_feed_goes_on_from_what_was_kept(rt: HostRuntime) -> Result<(), Fail> {
    let mut events = Vec::new(rt.alloc());
    let mut first = ReadingFeed::new(rt.alloc(), &[LAST])?;
    for (tick, value) in [(4321, 3), (4322, 4), (4323, 5), (4323, 6)] {
        first.take(&[reading(0, tick, value)], None, &mut events)?;
    }
    let kept = first.kept(rt.alloc())?;
    if kept.inputs.len() != 1 {
        return Err("one input was expected".into());
    }
    let mut second = ReadingFeed::resume(rt.alloc(), &[LAST], &kept)?;
    second.take(&[reading(0, 4327, 7)], None, &mut events)?;
    second.finish(&mut events)?;
    let expected = [
        known(0, 4320),
        row(0, 4320, 4321, 3),
        row(0, 4321, 4322, 4),
        row(0, 4322, 4323, 6),
        known(0, 4326),
        row(0, 4326, 4327, 7),
        Event::Finish,
    ];
    assert_eq!(rt; events.as_slice(), expected.as_slice());
    assert_eq!(rt; second.skipped(0), Some(1));
    Ok(())
}

// A value that holds goes on too, and ends by its age. A finished feed stays finished.
#[test]
fn a_value_holds_in_a_feed_that_goes_on(rt: HostRuntime) -> Result<(), Fail> {
    let mut events = Vec::new(rt.alloc());
    let mut first = ReadingFeed::new(rt.alloc(), &[TEN])?;
    first.take(&[reading(0, 21613, 6)], None, &mut events)?;
    let kept = first.kept(rt.alloc())?;
    if kept.inputs.len() != 1 {
        return Err("one input was expected".into());
    }
    let mut second = ReadingFeed::resume(rt.alloc(), &[TEN], &kept)?;
    second.take(&[reading(0, 21632, 7)], None, &mut events)?;
    second.finish(&mut events)?;
    let expected = [
        value(0, 21612, 6),
        no_value(0, 21622),
        value(0, 21631, 7),
        no_value(0, 21641),
        Event::Finish,
    ];
    assert_eq!(rt; events.as_slice(), expected.as_slice());
    let kept = second.kept(rt.alloc())?;
    if kept.inputs.len() != 1 {
        return Err("one input was expected".into());
    }
    let third = ReadingFeed::resume(rt.alloc(), &[TEN], &kept)?;
    assert_eq!(rt; third.fault(&[], None), Some(FeedFault::Finished));
    Ok(())
}

#[test]
fn the_first_fault_of_a_line(rt: HostRuntime) -> Result<(), Fail> {
    let feed = ReadingFeed::new(rt.alloc(), &[HOLD, HOLD])?;
    let far = FeedFault::NotTaken {
        input: 0,
        fault: TurnFault::OutOfRange,
    };
    let line = [reading(0, T + 1, 1), reading(2, 1, 1)];
    assert_eq!(rt; feed.fault(&line, Some(T + 1)), Some(far));
    let line = [reading(0, 1, 1), reading(2, 1, 1)];
    assert_eq!(rt;
        feed.fault(&line, None),
        Some(FeedFault::NoInput { input: 2 })
    );
    let line = [reading(1, 1, 1), reading(0, 2, 1)];
    assert_eq!(rt;
        feed.fault(&line, None),
        Some(FeedFault::Repeated { input: 0 })
    );
    assert_eq!(rt; feed.fault(&[], Some(T + 1)), Some(FeedFault::OutOfRange));
    assert_eq!(rt; feed.fault(&[], Some(T)), None);
    Ok(())
}

#[test]
fn feed_faults_say_what_is_wrong(rt: HostRuntime) -> Result<(), Fail> {
    let late = FeedFault::NotTaken {
        input: 1,
        fault: TurnFault::Late,
    };
    let text = format!(in rt.alloc();
        "{}; {}; {}; {}",
        FeedFault::Finished,
        FeedFault::NoInput { input: 2 },
        TakeError::Fault(late),
        TakeError::OutOfMemory
    )?;
    assert_eq!(rt;
        text.as_str(),
        "the feed is finished; there is no input 2; the reading of input 1: it is before what is known; out of memory"
    );
    Ok(())
}
