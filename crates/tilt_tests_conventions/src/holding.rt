// Readings that hold.
use std::test::Fail;
use tilt_conventions::{Convention, Converter, Options, Reading, Ties, Turn};
use tilt_feed::Update;

const HOLD: Options = Options {
    convention: Convention::Hold { max_age: None },
    ties: Ties::Refuse,
};

const MINUTE: Options = Options {
    convention: Convention::Hold { max_age: Some(60) },
    ties: Ties::Refuse,
};

// A reading with a value.
fn reading(tick: i64, value: i64) -> Turn {
    Turn::Reading {
        reading: Reading {
            tick,
            value: Some(value),
        },
    }
}

// The column `temp` of `readings.csv` with ticks of a second, from midnight: the rows start at 21600, 21605, 21610, 21612 and 21631.
#[test]
fn readings_hold_until_the_next_one(rt: HostRuntime) -> Result<(), Fail> {
    let mut converter = Converter::new(HOLD);
    let mut updates = Vec::new(rt.alloc());
    converter.take(reading(21601, 2050), &mut updates)?;
    converter.take(reading(21606, 2075), &mut updates)?;
    let none = Reading {
        tick: 21611,
        value: None,
    };
    converter.take(Turn::Reading { reading: none }, &mut updates)?;
    converter.take(reading(21613, 2100), &mut updates)?;
    converter.take(reading(21632, 2150), &mut updates)?;
    converter.finish(&mut updates)?;
    let expected = [
        Update::Value {
            start: 21600,
            value: 2050,
        },
        Update::Value {
            start: 21605,
            value: 2075,
        },
        Update::NoValue { start: 21610 },
        Update::Value {
            start: 21612,
            value: 2100,
        },
        Update::Value {
            start: 21631,
            value: 2150,
        },
    ];
    assert_eq!(rt; updates.as_slice(), expected.as_slice());
    Ok(())
}

// `temp` of the station north of `tall.csv` has the rows (0, 60] and (60, 120]. A later reading leaves a gap.
#[test]
fn a_hold_ends_by_its_age(rt: HostRuntime) -> Result<(), Fail> {
    let mut converter = Converter::new(MINUTE);
    let mut updates = Vec::new(rt.alloc());
    converter.take(reading(1, 205), &mut updates)?;
    converter.take(reading(61, 215), &mut updates)?;
    converter.take(Turn::KnownUpTo { watermark: 120 }, &mut updates)?;
    converter.take(reading(131, 217), &mut updates)?;
    converter.take(Turn::KnownUpTo { watermark: 190 }, &mut updates)?;
    converter.take(Turn::KnownUpTo { watermark: 191 }, &mut updates)?;
    let expected = [
        Update::Value {
            start: 0,
            value: 205,
        },
        Update::Value {
            start: 60,
            value: 215,
        },
        Update::KnownUpTo { watermark: 120 },
        Update::NoValue { start: 120 },
        Update::Value {
            start: 130,
            value: 217,
        },
        Update::KnownUpTo { watermark: 190 },
        Update::NoValue { start: 190 },
    ];
    assert_eq!(rt; updates.as_slice(), expected.as_slice());
    Ok(())
}

// The last one holds for its age: the row (60, 120].
#[test]
fn the_last_one_holds_for_its_age(rt: HostRuntime) -> Result<(), Fail> {
    let mut converter = Converter::new(MINUTE);
    let mut updates = Vec::new(rt.alloc());
    converter.take(reading(61, 215), &mut updates)?;
    converter.finish(&mut updates)?;
    let expected = [
        Update::Value {
            start: 60,
            value: 215,
        },
        Update::NoValue { start: 120 },
    ];
    assert_eq!(rt; updates.as_slice(), expected.as_slice());
    Ok(())
}
