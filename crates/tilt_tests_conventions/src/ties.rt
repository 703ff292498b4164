// Two readings in one tick: the column `power` of `readings.csv` as events, with ticks of five seconds.
use std::test::Fail;
use tilt_conventions::{Convention, Converter, Options, Reading, TakeError, Ties, Turn, TurnFault};
use tilt_feed::Update;

// The tick and the value of each reading.
const READINGS: [(i64, i64); 5] = [(4321, 3), (4322, 4), (4323, 5), (4323, 6), (4327, 7)];

const FIRST: Options = Options {
    convention: Convention::Event,
    ties: Ties::First,
};

const LAST: Options = Options {
    convention: Convention::Event,
    ties: Ties::Last,
};

const SPREAD: Options = Options {
    convention: Convention::Event,
    ties: Ties::Spread,
};

const REFUSE: Options = Options {
    convention: Convention::Event,
    ties: Ties::Refuse,
};

// A reading with a value.
fn reading(tick: i64, value: i64) -> Turn {
    Turn::Reading {
        reading: Reading {
            tick,
            value: Some(value),
        },
    }
}

// The row of one tick.
fn row(end: i64, start: i64, value: i64) -> Update {
    Update::Row {
        start,
        end,
        value: Some(value),
    }
}

// Takes all readings.
fn take_all(converter: &mut Converter, updates: &mut Vec<Update>) -> Result<(), Fail> {
    for (tick, value) in READINGS {
        converter.take(reading(tick, value), updates)?;
    }
    converter.finish(updates)?;
    Ok(())
}

#[test]
fn the_first_one_counts(rt: HostRuntime) -> Result<(), Fail> {
    let mut converter = Converter::new(FIRST);
    let mut updates = Vec::new(rt.alloc());
    take_all(&mut converter, &mut updates)?;
    let expected = [
        row(4321, 4320, 3),
        row(4322, 4321, 4),
        row(4323, 4322, 5),
        row(4327, 4326, 7),
    ];
    assert_eq!(rt; updates.as_slice(), expected.as_slice());
    assert_eq!(rt; converter.skipped(), 1);
    Ok(())
}

// `--ties last` makes these 4 rows over (4320, 4327].
#[test]
fn the_last_one_counts(rt: HostRuntime) -> Result<(), Fail> {
    let mut converter = Converter::new(LAST);
    let mut updates = Vec::new(rt.alloc());
    take_all(&mut converter, &mut updates)?;
    let expected = [
        Update::KnownUpTo { watermark: 4320 },
        row(4321, 4320, 3),
        row(4322, 4321, 4),
        row(4323, 4322, 6),
        Update::KnownUpTo { watermark: 4326 },
        row(4327, 4326, 7),
    ];
    assert_eq!(rt; updates.as_slice(), expected.as_slice());
    assert_eq!(rt; converter.skipped(), 1);
    Ok(())
}

#[test]
fn each_gets_a_tick(rt: HostRuntime) -> Result<(), Fail> {
    let mut converter = Converter::new(SPREAD);
    let mut updates = Vec::new(rt.alloc());
    take_all(&mut converter, &mut updates)?;
    let expected = [
        row(4321, 4320, 3),
        row(4322, 4321, 4),
        row(4323, 4322, 5),
        row(4324, 4323, 6),
        row(4327, 4326, 7),
    ];
    assert_eq!(rt; updates.as_slice(), expected.as_slice());
    assert_eq!(rt; converter.skipped(), 0);
    Ok(())
}

#[test]
fn a_second_one_is_refused(rt: HostRuntime) -> Result<(), Fail> {
    let mut converter = Converter::new(REFUSE);
    let mut updates = Vec::new(rt.alloc());
    converter.take(reading(4323, 5), &mut updates)?;
    let tie = TakeError::Fault(TurnFault::Tie);
    assert_eq!(rt; converter.take(reading(4323, 6), &mut updates), Err(tie));
    assert_eq!(rt; updates.len(), 1);
    Ok(())
}
