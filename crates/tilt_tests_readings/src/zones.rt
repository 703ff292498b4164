// Lines whose times are local times of a zone. The moments are those of Python's module `zoneinfo` for Europe/Berlin, whose clocks were set
// ahead on 2026-03-29 at 01:00Z, and back on 2026-10-25 at 01:00Z.
use std::alloc::Global;
use std::process::Abort;
use std::test::Fail;
use tilt_lexer::Name;
use tilt_reading_lines::{
    InputReading, LineFault, LocalRules, Moments, ReadLineFault, ReadingReader, Rules, Source,
    Titles,
};
use tilt_readings::{Clock, Closed, DateFault};
use tilt_zones::{Fold, LocalFault, Transition, Zone};

// Ticks of a second from 2026-03-01T00:00:00Z on.
const CLOCK: Clock = Clock {
    origin: 1772323200000000000,
    length: 1_000_000_000,
    closed: Closed::Left,
};

// When clocks are set in 2026, and how far they are ahead then. The table ends with the year.
const TRANSITIONS: &[Transition] = &[
    Transition {
        moment: 1774746000,
        offset: 7200,
    },
    Transition {
        moment: 1792890000,
        offset: 3600,
    },
];

const END: i64 = 1798761600;

// A line, its tick, or why it is bad; whatever the fold is.
const LINES: &[(&[u8], Result<i64, LineFault>)] = &[
    (b"2026-03-01T06:00:00,1", Ok(18001)),
    (b"2026-03-29 01:59:59,1", Ok(2422800)),
    (b"2026-03-29 03:00:00,1", Ok(2422801)),
    (b"2026-07-01T12:00:00.25,1", Ok(10576801)),
    (b"2026-10-25 01:59:59,1", Ok(20563200)),
    (b"2026-10-25 03:00:00,1", Ok(20570401)),
    (b"2027-01-01T00:59:59,1", Ok(26438400)),
    // A date with an offset is what it says, also if clocks of the zone never show it.
    (b"2026-03-29T02:30:00Z,1", Ok(2428201)),
    (b"2026-03-29 02:30:00+01:00,1", Ok(2424601)),
    (b"2026-10-25 02:30:00+02:00,1", Ok(20565001)),
    (b"2026-10-25 02:30:00+01:00,1", Ok(20568601)),
    (
        b"2027-01-01T01:00:00,1",
        Err(LineFault::BadLocal(LocalFault::Beyond)),
    ),
    (b"today,1", Err(LineFault::BadDate(DateFault::NotDate))),
    (
        b"2026-02-29T00:00:00,1",
        Err(LineFault::BadDate(DateFault::NoSuchTime)),
    ),
    (
        b"2026-03-01T06:00:00.0000000001,1",
        Err(LineFault::BadDate(DateFault::TooFine)),
    ),
    (
        b"2026-02-29T00:00:00Z,1",
        Err(LineFault::BadDate(DateFault::NoSuchTime)),
    ),
];

// A line of a local time that clocks skip or show twice, which is bad without a fold, and its tick by the first and by the second one.
const FOLDED: &[(&[u8], LocalFault, i64, i64)] = &[
    (
        b"2026-03-29 02:00:00,1",
        LocalFault::Skipped,
        2422801,
        2419201,
    ),
    (
        b"2026-03-29 02:30:00,1",
        LocalFault::Skipped,
        2424601,
        2421001,
    ),
    (
        b"2026-10-25 02:00:00,1",
        LocalFault::Doubled,
        20563201,
        20566801,
    ),
    (
        b"2026-10-25T02:30:00,1",
        LocalFault::Doubled,
        20565001,
        20568601,
    ),
];

// Europe/Berlin in 2026.
fn make_local(alloc: Global, fold: Option<Fold>) -> Result<LocalRules, Fail> {
    let mut transitions = Vec::new(alloc);
    for transition in TRANSITIONS {
        transitions.push(*transition)?;
    }
    let zone = match Zone::new(3600, transitions, END) {
        Ok(zone) => zone,
        Err(_fault) => return Err("the transitions are in order".into()),
    };
    let name = b"Europe/Berlin".as_slice().to_vec(alloc)?;
    Ok(LocalRules::new(zone, fold, name))
}

// The tick of a line with a time and a value of 1.
fn tick_of(
    alloc: Global,
    local: Option<LocalRules>,
    line: &[u8],
) -> Result<Result<i64, LineFault>, Fail> {
    let mut sources = Vec::new(alloc);
    sources.push(Source::new(Name::read(alloc, b"x")?.ok_or("x is a name")?, 1))?;
    let rules = Rules::new(Moments::Dates, local, CLOCK, b'.', Vec::new(alloc), false);
    let mut reader = ReadingReader::new(alloc, b',');
    let titles = Titles::OfInputs {
        time: b"time".as_slice().to_vec(alloc)?,
    };
    let columns = reader.read_header(b"time,x", &titles, &sources)?;
    let mut readings = Vec::new(alloc);
    match reader.read_line(line, &columns, &rules, &sources, &mut readings) {
        Ok(_known) => match readings.as_slice() {
            [InputReading { tick, .. }] => Ok(Ok(*tick)),
            _ => Err("not one reading".into()),
        },
        Err(ReadLineFault::BadLine(fault)) => Ok(Err(fault)),
        Err(ReadLineFault::OutOfMemory) => Err("out of memory".into()),
    }
}

// The tick of a line by the clocks of the zone.
fn tick_in_zone(
    alloc: Global,
    fold: Option<Fold>,
    line: &[u8],
) -> Result<Result<i64, LineFault>, Fail> {
    tick_of(alloc, Some(make_local(alloc, fold)?), line)
}

fn has_tick<R: Abort>(
    alloc: Global,
    rt: &R,
    fold: Option<Fold>,
    line: &[u8],
    expected: &Result<i64, LineFault>,
) -> Result<(), Fail> {
    let found = tick_in_zone(alloc, fold, line)?;
    assert!(rt; found == *expected, "at {line:?}");
    Ok(())
}

#[test]
fn local_times_of_a_zone(rt: HostRuntime) -> Result<(), Fail> {
    for (line, expected) in LINES {
        has_tick(rt.alloc(), &rt, None, line, expected)?;
        has_tick(rt.alloc(), &rt, Some(Fold::First), line, expected)?;
        has_tick(rt.alloc(), &rt, Some(Fold::Second), line, expected)?;
    }
    Ok(())
}

#[test]
fn local_times_that_are_skipped_or_doubled(rt: HostRuntime) -> Result<(), Fail> {
    for (line, fault, first, second) in FOLDED {
        let bad = Err(LineFault::BadLocal(*fault));
        has_tick(rt.alloc(), &rt, None, line, &bad)?;
        has_tick(rt.alloc(), &rt, Some(Fold::First), line, &Ok(*first))?;
        has_tick(rt.alloc(), &rt, Some(Fold::Second), line, &Ok(*second))?;
    }
    Ok(())
}

#[test]
fn without_a_zone_local_times_are_no_dates(rt: HostRuntime) -> Result<(), Fail> {
    let bad = Err(LineFault::BadDate(DateFault::NotDate));
    for line in &[
        b"2026-03-01T06:00:00,1".as_slice(),
        b"2026-03-29 02:30:00,1",
        b"2026-10-25 02:30:00,1",
    ] {
        let found = tick_of(rt.alloc(), None, line)?;
        assert!(rt; found == bad, "at {line:?}");
    }
    Ok(())
}
