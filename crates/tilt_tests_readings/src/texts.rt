// The text of a feed of readings, line by line. The rows are those that `tilt-data series` writes for the files of DATA.md; the events
// between them were worked out by hand.
use std::alloc::Global;
use std::test::Fail;
use tilt_conventions::{Convention, Options, Ties, TurnFault};
use tilt_feed::{Event, Update};
use tilt_lexer::Name;
use tilt_outside::MemSink;
use tilt_reading_feed::FeedFault;
use tilt_reading_lines::{Column, HeaderFault, LineFault, Moments, Rules, Source, Titles};
use tilt_reading_state::{decode_kept, encode_kept};
use tilt_reading_text::{BadReadingLine, ReadingForm, ReadingText, TakeLineError, put_report};
use tilt_readings::{Clock, Closed, DateFault, DecimalFault};

// Ticks of a second from 2026-03-01T00:00:00Z on.
const CLOCK: Clock = Clock {
    origin: 1772323200000000000,
    length: 1_000_000_000,
    closed: Closed::Left,
};

const HOLD: Options = Options {
    convention: Convention::Hold { max_age: None },
    ties: Ties::Refuse,
};

// `readings.csv`, with blank lines, a line whose value has a digit too many, and a line that comes late.
const LINES: &[&[u8]] = &[
    b"",
    b"time,temp,power\r",
    b"2026-03-01T06:00:00Z,20.5,3",
    b"\r",
    b"2026-03-01T06:00:05Z,20.75,4",
    b"2026-03-01T06:00:07Z,20.755,4",
    b"2026-03-01T06:00:10Z,,5",
    b"2026-03-01T06:00:12.5Z,21,6",
    b"2026-03-01T06:00:11Z,22,7",
    b"2026-03-01T06:00:31Z,21.5,7",
];

// The form of `readings.csv`.
fn make_form(alloc: Global) -> Result<ReadingForm, Fail> {
    let mut sources = Vec::new(alloc);
    let temp = Name::read(alloc, b"temp")?.ok_or("temp is a name")?;
    sources.push(Source::new(temp, 100))?;
    let power = Name::read(alloc, b"power")?.ok_or("power is a name")?;
    sources.push(Source::new(power, 1))?;
    Ok(ReadingForm {
        delimiter: b',',
        titles: Titles::OfInputs {
            time: b"time".as_slice().to_vec(alloc)?,
        },
        rules: Rules::new(Moments::Dates, None, CLOCK, b'.', Vec::new(alloc), false),
        sources,
    })
}

// The text of `readings.csv` before its first line.
fn make_text(alloc: Global, options: Options) -> Result<ReadingText, Fail> {
    let form = make_form(alloc)?;
    if form.sources.len() > 100 {
        return Err("too many sources".into());
    }
    if matches!(options.convention, Convention::Hold { max_age: Some(0) }) {
        return Err("an age is at least one tick".into());
    }
    Ok(ReadingText::new(alloc, form, &[options, options])?)
}

// Takes lines, and appends why bad ones are bad.
fn take_all(
    text: &mut ReadingText,
    lines: &[&[u8]],
    events: &mut Vec<Event>,
    bad: &mut Vec<BadReadingLine>,
) -> Result<(), Fail> {
    for line in lines {
        match text.take(line, events) {
            Ok(()) => {}
            Err(TakeLineError::Bad(why)) => bad.push(why)?,
            Err(TakeLineError::OutOfMemory) => return Err("out of memory".into()),
        }
    }
    Ok(())
}

// Events of an input.
fn value(input: u32, start: i64, value: i64) -> Event {
    let update = Update::Value { start, value };
    Event::Input { input, update }
}

fn no_value(input: u32, start: i64) -> Event {
    let update = Update::NoValue { start };
    Event::Input { input, update }
}

// `tilt-data series` makes 21600,21605,2050 21605,21610,2075 21610,21612, 21612,21631,2100 and 21631,21632,2150 of `temp`, and
// 21600,21605,3 21605,21610,4 21610,21612,5 21612,21631,6 and 21631,21632,7 of `power` without the two bad lines.
fn expected() -> [Event; 11] {
    [
        value(0, 21600, 2050),
        value(1, 21600, 3),
        value(0, 21605, 2075),
        value(1, 21605, 4),
        no_value(0, 21610),
        value(1, 21610, 5),
        value(0, 21612, 2100),
        value(1, 21612, 6),
        value(0, 21631, 2150),
        value(1, 21631, 7),
        Event::Finish,
    ]
}

#[test]
fn bad_lines_are_skipped_and_blank_ones_too(rt: HostRuntime) -> Result<(), Fail> {
    let mut text = make_text(rt.alloc(), HOLD)?;
    let mut events = Vec::new(rt.alloc());
    let mut bad = Vec::new(rt.alloc());
    take_all(&mut text, LINES, &mut events, &mut bad)?;
    text.finish(&mut events)?;
    assert_eq!(rt; events.as_slice(), expected().as_slice());
    let digits = LineFault::BadValue {
        input: 0,
        fault: DecimalFault::NotWhole,
    };
    let late = FeedFault::NotTaken {
        input: 0,
        fault: TurnFault::Late,
    };
    let reasons = [
        BadReadingLine::Unreadable(digits),
        BadReadingLine::NotTaken(late),
    ];
    assert_eq!(rt; bad.as_slice(), reasons.as_slice());
    Ok(())
}

// Nothing changes at a bad header; the caller has to stop.
#[test]
fn a_bad_header(rt: HostRuntime) -> Result<(), Fail> {
    let mut text = make_text(rt.alloc(), HOLD)?;
    let mut events = Vec::new(rt.alloc());
    let fault = HeaderFault::Missing {
        column: Column::OfInput { input: 1 },
    };
    let why = TakeLineError::Bad(BadReadingLine::BadHeader(fault));
    assert_eq!(rt; text.take(b"time,temp", &mut events), Err(why));
    assert!(rt; !text.has_header());
    text.take(b"time,temp,power", &mut events)?;
    assert!(rt; text.has_header());
    let why = TakeLineError::Bad(BadReadingLine::Unreadable(LineFault::BadDate(
        DateFault::NotDate,
    )));
    assert_eq!(rt; text.take(b"time,temp,power", &mut events), Err(why));
    assert_eq!(rt; events.len(), 0);
    Ok(())
}

// Reasons, and what is reported of line 3.
const REPORTS: &[(BadReadingLine, &[u8])] = &[
    (
        BadReadingLine::BadHeader(HeaderFault::NotOneRecord),
        b"tilt: 90 line 3: the header isn't one record\n",
    ),
    (
        BadReadingLine::BadHeader(HeaderFault::Missing {
            column: Column::Time,
        }),
        b"tilt: 91 line 3: no column of times\n",
    ),
    (
        BadReadingLine::BadHeader(HeaderFault::Doubled {
            column: Column::OfInput { input: 1 },
        }),
        b"tilt: 92 line 3: two columns of input 2\n",
    ),
    (
        BadReadingLine::Unreadable(LineFault::FieldCount { expected: 4 }),
        b"tilt: 94 line 3: not 4 fields\n",
    ),
    (
        BadReadingLine::Unreadable(LineFault::BadValue {
            input: 0,
            fault: DecimalFault::NotWhole,
        }),
        b"tilt: 98 line 3: bad value of input 1: digits would be lost\n",
    ),
    (BadReadingLine::TooLong, b"tilt: 99 line 3: too long\n"),
    (
        BadReadingLine::NotTaken(FeedFault::NotTaken {
            input: 0,
            fault: TurnFault::Late,
        }),
        b"tilt: 102 line 3: late reading of input 1\n",
    ),
];

#[test]
fn reports(rt: HostRuntime) -> Result<(), Fail> {
    for (why, expected) in REPORTS {
        let mut sink = MemSink::new(rt.alloc(), 100)?;
        if put_report(&mut sink, 3, *why).is_err() {
            return Err("the report doesn't fit".into());
        }
        assert_eq!(rt; sink.written(), *expected);
    }
    Ok(())
}

// The events of all lines and of the end, if another text goes on after so many lines from what the first one keeps. Two lines are bad.
fn events_in_two(alloc: Global, count: usize) -> Result<Vec<Event>, Fail> {
    let (front, rest) = LINES.split_at(count.min(LINES.len()));
    let mut events = Vec::new(alloc);
    let mut bad = Vec::new(alloc);
    let mut first = make_text(alloc, HOLD)?;
    take_all(&mut first, front, &mut events, &mut bad)?;
    let mut second = resumed(alloc, &first)?;
    take_all(&mut second, rest, &mut events, &mut bad)?;
    second.finish(&mut events)?;
    if bad.len() != 2 {
        return Err("two bad lines were expected".into());
    }
    Ok(events)
}

// A text that goes on from what another one keeps, as it is spelled. That has the columns of the header and the values that hold.
fn resumed(alloc: Global, first: &ReadingText) -> Result<ReadingText, Fail> {
    let mut spelled = Vec::new(alloc);
    encode_kept(&first.kept(alloc)?, &mut spelled)?;
    match decode_kept(alloc, spelled.as_slice()) {
        Ok((kept, _count)) => {
            let kept = &kept;
            let form = make_form(alloc)?;
            if kept.readings.inputs.len() != 2 || form.sources.len() > 100 {
                return Err("two inputs were expected".into());
            }
            Ok(ReadingText::resume(alloc, form, &[HOLD, HOLD], kept)?)
        }
        Err(_fault) => Err("what was kept isn't read back".into()),
    }
}

#[test]
fn a_text_goes_on_from_what_was_kept(rt: HostRuntime) -> Result<(), Fail> {
    for count in 0..LINES.len() + 1 {
        let events = events_in_two(rt.alloc(), count)?;
        assert_eq!(rt;
            events.as_slice(),
            expected().as_slice(),
            "after {count} lines"
        );
    }
    Ok(())
}
