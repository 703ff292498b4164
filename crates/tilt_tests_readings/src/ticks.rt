// Ticks of moments.
use std::test::Fail;
use tilt_readings::{Clock, Closed, tick_of};

// An origin, the length of a tick, the end that belongs to it, a moment, and its tick.
const TICKS: &[(i128, u64, Closed, i128, Option<i64>)] = &[
    (0, 1000000000, Closed::Left, 0, Some(1)),
    (0, 1000000000, Closed::Left, 1, Some(1)),
    (0, 1000000000, Closed::Left, -1, Some(0)),
    (0, 1000000000, Closed::Left, 1000000000, Some(2)),
    (0, 1000000000, Closed::Left, -1000000000, Some(0)),
    (0, 1000000000, Closed::Left, 999999999, Some(1)),
    (0, 1000000000, Closed::Right, 0, Some(0)),
    (0, 1000000000, Closed::Right, 1, Some(1)),
    (0, 1000000000, Closed::Right, -1, Some(0)),
    (0, 1000000000, Closed::Right, 1000000000, Some(1)),
    (0, 1000000000, Closed::Right, -1000000000, Some(-1)),
    (0, 1000000000, Closed::Right, 1000000001, Some(2)),
    (
        1772323200000000000,
        250000000,
        Closed::Left,
        1772352000250000000,
        Some(115202),
    ),
    (
        1772323200000000000,
        250000000,
        Closed::Left,
        1772352000249999999,
        Some(115201),
    ),
    (
        1772323200000000000,
        250000000,
        Closed::Right,
        1772352000250000000,
        Some(115201),
    ),
    (
        1772323200000000000,
        250000000,
        Closed::Right,
        1772352000250000001,
        Some(115202),
    ),
    (
        0,
        1,
        Closed::Left,
        3999999999999999999,
        Some(4000000000000000000),
    ),
    (0, 1, Closed::Left, 4000000000000000000, None),
    (
        0,
        1,
        Closed::Left,
        -4000000000000000000,
        Some(-3999999999999999999),
    ),
    (0, 1, Closed::Left, -4000000000000000001, None),
    (
        0,
        1,
        Closed::Right,
        4000000000000000000,
        Some(4000000000000000000),
    ),
    (0, 1, Closed::Right, 4000000000000000001, None),
    (0, 1, Closed::Right, -4000000000000000000, None),
    (
        0,
        1,
        Closed::Right,
        -3999999999999999999,
        Some(-3999999999999999999),
    ),
    (
        0,
        18446744073709551615,
        Closed::Left,
        73786976294838206459999999999999999999,
        Some(4000000000000000000),
    ),
    (
        0,
        18446744073709551615,
        Closed::Left,
        73786976294838206460000000000000000000,
        None,
    ),
    (
        -1000000000000000000000000000000000000,
        1000000000,
        Closed::Left,
        170141183460469231731687303715884105727,
        None,
    ),
];

#[test]
fn moments_lie_in_their_ticks(rt: HostRuntime) -> Result<(), Fail> {
    for (origin, length, closed, moment, expected) in TICKS {
        let clock = Clock {
            origin: *origin,
            length: *length,
            closed: *closed,
        };
        if clock.length > 0 {
            assert_eq!(rt; tick_of(clock, *moment), *expected, "{moment}");
        }
    }
    Ok(())
}
