// Lines of readings. The ticks and values of the files of DATA.md are those of Python's converter.
use std::alloc::Global;
use std::test::Fail;
use tilt_lexer::Name;
use tilt_reading_lines::{
    Column, HeaderFault, InputReading, LineFault, Moments, ReadHeaderFault, ReadLineFault,
    ReadingReader, Rules, Source, Titles,
};
use tilt_readings::{Clock, Closed, DateFault, DecimalFault};

// Ticks of a second from 2026-03-01T00:00:00Z on.
const CLOCK: Clock = Clock {
    origin: 1772323200000000000,
    length: 1_000_000_000,
    closed: Closed::Left,
};

// A line of `readings.csv`, its tick, and the values of both columns.
const WIDE_LINES: &[(&[u8], i64, Option<i64>, Option<i64>)] = &[
    (b"2026-03-01T06:00:00Z,20.5,3", 21601, Some(2050), Some(3)),
    (
        b"2026-03-01T06:00:05Z,20.75,4\r",
        21606,
        Some(2075),
        Some(4),
    ),
    (b"2026-03-01T06:00:10Z,,5", 21611, None, Some(5)),
    (
        b"2026-03-01T06:00:12.5Z, 21 ,\"6\"",
        21613,
        Some(2100),
        Some(6),
    ),
    (
        b"2026-03-01T07:00:31+01:00,21.5,NaN",
        21632,
        Some(2150),
        None,
    ),
];

// A line of `tall.csv`, the readings that it says, and the tick up to which all inputs are known.
const TALL_LINES: &[(&[u8], &[InputReading], Option<i64>)] = &[
    (
        b"2026-03-01T00:00:00Z,north,temp,20.5",
        &[InputReading {
            input: 0,
            tick: 1,
            value: Some(2050),
        }],
        None,
    ),
    (
        b"2026-03-01T00:01:00Z,north,power,-7",
        &[InputReading {
            input: 1,
            tick: 61,
            value: Some(-7),
        }],
        None,
    ),
    (b"2026-03-01T00:01:00Z,north,humidity,high", &[], None),
    (b"2026-03-01T00:02:00Z,,,", &[], Some(120)),
];

// A line, and why it is bad.
const BAD_LINES: &[(&[u8], LineFault)] = &[
    (b"", LineFault::NotOneRecord),
    (b"today,north,temp", LineFault::FieldCount { expected: 4 }),
    (
        b"today,north,temp,high",
        LineFault::BadDate(DateFault::NotDate),
    ),
    (
        b"2026-02-29T00:00:00Z,north,,1",
        LineFault::BadDate(DateFault::NoSuchTime),
    ),
    (b"2026-03-01T00:00:00Z,north,,1", LineFault::NoName),
    (
        b"2026-03-01T00:00:00Z,north,power,1.5",
        LineFault::BadValue {
            input: 1,
            fault: DecimalFault::NotWhole,
        },
    ),
    (
        b"2026-03-01T00:00:00Z,north,temp,1_000",
        LineFault::BadValue {
            input: 0,
            fault: DecimalFault::NotDecimal,
        },
    ),
];

// A column for each input.
fn wide(alloc: Global) -> Result<Titles, Fail> {
    let time = b"time".as_slice().to_vec(alloc)?;
    Ok(Titles::OfInputs { time })
}

// A column of names.
fn tall(alloc: Global) -> Result<Titles, Fail> {
    Ok(Titles::Named {
        time: b"time".as_slice().to_vec(alloc)?,
        name: b"sensor".as_slice().to_vec(alloc)?,
        value: b"value".as_slice().to_vec(alloc)?,
    })
}

// The inputs `temp`, times 100, and `power`.
fn make_sources(alloc: Global) -> Result<Vec<Source>, Fail> {
    let mut sources = Vec::new(alloc);
    let temp = Name::read(alloc, b"temp")?.ok_or("temp is a name")?;
    sources.push(Source::new(temp, 100))?;
    let power = Name::read(alloc, b"power")?.ok_or("power is a name")?;
    sources.push(Source::new(power, 1))?;
    Ok(sources)
}

// Dates, decimals with a point, and `NaN` for no value.
fn make_rules(alloc: Global) -> Result<Rules, Fail> {
    let mut nulls = Vec::new(alloc);
    nulls.push(b"NaN".as_slice().to_vec(alloc)?)?;
    Ok(Rules::new(Moments::Dates, None, CLOCK, b'.', nulls, false))
}

#[test]
fn a_column_of_each_input(rt: HostRuntime) -> Result<(), Fail> {
    let (sources, rules) = (make_sources(rt.alloc())?, make_rules(rt.alloc())?);
    assert!(rt; sources.len() < 100);
    let mut reader = ReadingReader::new(rt.alloc(), b',');
    let columns = reader.read_header(
        b"\xEF\xBB\xBFtime, temp,power",
        &wide(rt.alloc())?,
        &sources,
    )?;
    let mut readings = Vec::new(rt.alloc());
    for (line, tick, temp, power) in WIDE_LINES {
        let known = reader.read_line(line, &columns, &rules, &sources, &mut readings)?;
        let expected = [
            InputReading {
                input: 0,
                tick: *tick,
                value: *temp,
            },
            InputReading {
                input: 1,
                tick: *tick,
                value: *power,
            },
        ];
        assert_eq!(rt; readings.as_slice(), expected.as_slice());
        assert_eq!(rt; known, None);
    }
    Ok(())
}

#[test]
fn a_column_of_names(rt: HostRuntime) -> Result<(), Fail> {
    let (sources, rules) = (make_sources(rt.alloc())?, make_rules(rt.alloc())?);
    assert!(rt; sources.len() < 100);
    let mut reader = ReadingReader::new(rt.alloc(), b',');
    let columns = reader.read_header(b"time,station,sensor,value", &tall(rt.alloc())?, &sources)?;
    let mut readings = Vec::new(rt.alloc());
    for (line, expected, watermark) in TALL_LINES {
        let known = reader.read_line(line, &columns, &rules, &sources, &mut readings)?;
        assert_eq!(rt; readings.as_slice(), *expected);
        assert_eq!(rt; known, *watermark);
    }
    Ok(())
}

#[test]
fn bad_lines(rt: HostRuntime) -> Result<(), Fail> {
    let (sources, rules) = (make_sources(rt.alloc())?, make_rules(rt.alloc())?);
    assert!(rt; sources.len() < 100);
    let mut reader = ReadingReader::new(rt.alloc(), b',');
    let columns = reader.read_header(b"time,station,sensor,value", &tall(rt.alloc())?, &sources)?;
    let mut readings = Vec::new(rt.alloc());
    for (line, fault) in BAD_LINES {
        let found = reader.read_line(line, &columns, &rules, &sources, &mut readings);
        assert_eq!(rt; found, Err(ReadLineFault::BadLine(*fault)), "at {line:?}");
    }
    Ok(())
}

// A header of a column for each input, and why it is bad.
const BAD_HEADERS: &[(&[u8], HeaderFault)] = &[
    (b"", HeaderFault::NotOneRecord),
    (
        b"times,temp,power",
        HeaderFault::Missing {
            column: Column::Time,
        },
    ),
    (
        b"time,temp,power,time",
        HeaderFault::Doubled {
            column: Column::Time,
        },
    ),
    (
        b"time,temp,power2",
        HeaderFault::Missing {
            column: Column::OfInput { input: 1 },
        },
    ),
    (
        b"time,temp,power,temp",
        HeaderFault::Doubled {
            column: Column::OfInput { input: 0 },
        },
    ),
];

#[test]
fn bad_headers(rt: HostRuntime) -> Result<(), Fail> {
    let sources = make_sources(rt.alloc())?;
    assert!(rt; sources.len() < 100);
    let mut reader = ReadingReader::new(rt.alloc(), b',');
    let titles = wide(rt.alloc())?;
    for (line, fault) in BAD_HEADERS {
        match reader.read_header(line, &titles, &sources) {
            Ok(_) => return Err("a bad header was taken".into()),
            Err(found) => assert_eq!(rt; found, ReadHeaderFault::BadHeader(*fault)),
        }
    }
    Ok(())
}
