// Turns that aren't taken.
use std::test::Fail;
use tilt_base::T;
use tilt_conventions::{
    Convention, Converter, Options, Reading, TakeError, Ties, Turn, TurnFault, fits,
};

const HOLD: Options = Options {
    convention: Convention::Hold { max_age: None },
    ties: Ties::First,
};

// A reading with a value.
fn reading(tick: i64) -> Turn {
    Turn::Reading {
        reading: Reading {
            tick,
            value: Some(1),
        },
    }
}

#[test]
fn turns_that_are_not_taken_change_nothing(rt: HostRuntime) -> Result<(), Fail> {
    let mut converter = Converter::new(HOLD);
    let mut updates = Vec::new(rt.alloc());
    converter.take(reading(10), &mut updates)?;
    let late = TakeError::Fault(TurnFault::Late);
    assert_eq!(rt; converter.take(reading(9), &mut updates), Err(late));
    assert_eq!(rt;
        converter.take(Turn::KnownUpTo { watermark: 8 }, &mut updates),
        Err(late)
    );
    assert_eq!(rt; converter.fault(Turn::KnownUpTo { watermark: 9 }), None);
    assert_eq!(rt; converter.fault(reading(10)), None);
    converter.take(Turn::KnownUpTo { watermark: 10 }, &mut updates)?;
    assert_eq!(rt; converter.fault(reading(10)), Some(TurnFault::Late));
    assert_eq!(rt; updates.len(), 1);
    Ok(())
}

#[test]
fn times_have_a_range(rt: HostRuntime) -> Result<(), Fail> {
    let converter = Converter::new(HOLD);
    let far = Some(TurnFault::OutOfRange);
    assert_eq!(rt; converter.fault(reading(-T)), far);
    assert_eq!(rt; converter.fault(reading(1 - T)), None);
    assert_eq!(rt; converter.fault(reading(T)), None);
    assert_eq!(rt; converter.fault(reading(T + 1)), far);
    assert_eq!(rt; converter.fault(Turn::KnownUpTo { watermark: T }), None);
    assert_eq!(rt; converter.fault(Turn::KnownUpTo { watermark: T + 1 }), far);
    Ok(())
}

#[test]
fn what_is_kept_has_a_reading_within_the_range(rt: HostRuntime) -> Result<(), Fail> {
    let mut converter = Converter::new(HOLD);
    let mut updates = Vec::new(rt.alloc());
    assert!(rt; fits(&converter.kept()));
    converter.take(reading(T), &mut updates)?;
    let mut kept = converter.kept();
    assert!(rt; fits(&kept));
    kept.latest = Some(Reading {
        tick: T + 1,
        value: None,
    });
    assert!(rt; !fits(&kept));
    Ok(())
}

#[test]
fn faults_say_what_is_wrong(rt: HostRuntime) -> Result<(), Fail> {
    let text = format!(in rt.alloc();
        "{}; {}; {}; {}",
        TurnFault::OutOfRange,
        TurnFault::Late,
        TakeError::Fault(TurnFault::Tie),
        TakeError::OutOfMemory
    )?;
    assert_eq!(rt;
        text.as_str(),
        "a time is out of range; it is before what is known; it is a second reading in one tick; out of memory"
    );
    Ok(())
}
