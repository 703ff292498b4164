// Readings that are events.
use std::test::Fail;
use tilt_conventions::{Convention, Converter, Options, Reading, Ties, Turn};
use tilt_feed::Update;

const EVENT: Options = Options {
    convention: Convention::Event,
    ties: Ties::Refuse,
};

// A reading with a value.
fn event(tick: i64, value: i64) -> Turn {
    Turn::Reading {
        reading: Reading {
            tick,
            value: Some(value),
        },
    }
}

// The column `power` of `readings.csv` with ticks of half a second. A reading at 06:00:05 is in the tick 43211 if ticks are closed on the
// left, so its row is `43210,43211`.
#[test]
fn an_event_has_one_tick(rt: HostRuntime) -> Result<(), Fail> {
    let mut converter = Converter::new(EVENT);
    let mut updates = Vec::new(rt.alloc());
    converter.take(event(43201, 3), &mut updates)?;
    converter.take(event(43211, 4), &mut updates)?;
    let none = Reading {
        tick: 43220,
        value: None,
    };
    converter.take(Turn::Reading { reading: none }, &mut updates)?;
    converter.take(Turn::KnownUpTo { watermark: 43300 }, &mut updates)?;
    converter.finish(&mut updates)?;
    let expected = [
        Update::Row {
            start: 43200,
            end: 43201,
            value: Some(3),
        },
        Update::Row {
            start: 43210,
            end: 43211,
            value: Some(4),
        },
        Update::NoValue { start: 43219 },
        Update::KnownUpTo { watermark: 43300 },
    ];
    assert_eq!(rt; updates.as_slice(), expected.as_slice());
    Ok(())
}
