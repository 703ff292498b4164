// Decimals, and numbers of a unit since 1970.
use std::test::Fail;
use tilt_readings::{DecimalFault, Unit, read_decimal, read_epoch, write_decimal};

// A text, the mark before its decimals, a scale, and the number.
const DECIMALS: &[(&[u8], u8, u64, Result<i64, DecimalFault>)] = &[
    (b"23.5", b'.', 10, Ok(235)),
    (b"-20.75", b'.', 100, Ok(-2075)),
    (b"+5", b'.', 1, Ok(5)),
    (b".5", b'.', 2, Ok(1)),
    (b"5.", b'.', 1, Ok(5)),
    (b"007.250", b'.', 4, Ok(29)),
    (b"0.25", b'.', 4, Ok(1)),
    (b"-0.0", b'.', 1, Ok(0)),
    (b"20,75", b',', 100, Ok(2075)),
    (b"1.500", b',', 1000, Err(DecimalFault::NotDecimal)),
    (b"20,75", b'.', 100, Err(DecimalFault::NotDecimal)),
    (b"", b'.', 1, Err(DecimalFault::NotDecimal)),
    (b".", b'.', 1, Err(DecimalFault::NotDecimal)),
    (b"-", b'.', 1, Err(DecimalFault::NotDecimal)),
    (b"+-1", b'.', 1, Err(DecimalFault::NotDecimal)),
    (b"1.2.3", b'.', 1, Err(DecimalFault::NotDecimal)),
    (b" 1", b'.', 1, Err(DecimalFault::NotDecimal)),
    (b"1_000", b'.', 1, Err(DecimalFault::NotDecimal)),
    (b"20.75", b'.', 10, Err(DecimalFault::NotWhole)),
    (b"0.1", b'.', 3, Err(DecimalFault::NotWhole)),
    (
        b"1.000000000000000000000000000000000000000000000000000000000000",
        b'.',
        1,
        Ok(1),
    ),
    (
        b"0.0000000000000000000000000000001",
        b'.',
        10000000000000000000,
        Err(DecimalFault::NotWhole),
    ),
    (b"9223372036854775807", b'.', 1, Ok(9223372036854775807)),
    (
        b"9223372036854775808",
        b'.',
        1,
        Err(DecimalFault::OutOfRange),
    ),
    (b"-9223372036854775808", b'.', 1, Ok(-9223372036854775808)),
    (
        b"-9223372036854775809",
        b'.',
        1,
        Err(DecimalFault::OutOfRange),
    ),
    (b"922337203685477580.7", b'.', 10, Ok(9223372036854775807)),
    (
        b"922337203685477580.8",
        b'.',
        10,
        Err(DecimalFault::OutOfRange),
    ),
    (
        b"99999999999999999999999999999999999999999999999999.5",
        b'.',
        1,
        Err(DecimalFault::NotWhole),
    ),
    (
        b"99999999999999999999999999999999999999999999999999",
        b'.',
        1,
        Err(DecimalFault::OutOfRange),
    ),
    (b"0.0009765625", b'.', 1024, Ok(1)),
    (
        b"0.000000000000000000108420217248550443400745280086994171142578125",
        b'.',
        9223372036854775808,
        Ok(1),
    ),
    (
        b"1.5",
        b'.',
        18446744073709551614,
        Err(DecimalFault::OutOfRange),
    ),
    (b"0.5", b'.', 18446744073709551614, Ok(9223372036854775807)),
];

#[test]
fn decimals_are_exact_or_rejected(rt: HostRuntime) -> Result<(), Fail> {
    for (text, mark, scale, expected) in DECIMALS {
        if *scale > 0 {
            assert_eq!(rt; read_decimal(text, *mark, *scale), *expected, "{text:?}");
        }
    }
    Ok(())
}

// A number, how many decimals it is to have, and the text.
const TEXTS: &[(i64, u8, &[u8])] = &[
    (235, 0, b"235"),
    (-5, 2, b"-0.05"),
    (5, 2, b"0.05"),
    (0, 1, b"0.0"),
    (-2075, 2, b"-20.75"),
    (9223372036854775807, 19, b"0.9223372036854775807"),
    (-9223372036854775808, 19, b"-0.9223372036854775808"),
    (-9223372036854775808, 0, b"-9223372036854775808"),
    (10, 1, b"1.0"),
];

#[test]
fn numbers_are_written_with_their_decimals(rt: HostRuntime) -> Result<(), Fail> {
    for (value, decimals, expected) in TEXTS {
        if *decimals <= 19 {
            let mut room = [0u8; 64];
            let length = write_decimal(*value, *decimals, &mut room);
            assert_eq!(rt; room.get(..length), Some(*expected), "{value}");
        }
    }
    Ok(())
}

// A text, its unit, and the moment.
const EPOCHS: &[(&[u8], Unit, Result<i128, DecimalFault>)] = &[
    (b"1772352000", Unit::Seconds, Ok(1772352000000000000)),
    (b"1772352000.25", Unit::Seconds, Ok(1772352000250000000)),
    (b"-0.000000001", Unit::Seconds, Ok(-1)),
    (b"1.0000000001", Unit::Seconds, Err(DecimalFault::NotWhole)),
    (
        b"1772352000250.5",
        Unit::Milliseconds,
        Ok(1772352000250500000),
    ),
    (
        b"1772352000250000.5",
        Unit::Microseconds,
        Ok(1772352000250000500),
    ),
    (
        b"1772352000250000000.5",
        Unit::Nanoseconds,
        Err(DecimalFault::NotWhole),
    ),
    (
        b"1772352000250000001",
        Unit::Nanoseconds,
        Ok(1772352000250000001),
    ),
    (
        b"1000000000000000000000000000",
        Unit::Seconds,
        Ok(1000000000000000000000000000000000000),
    ),
    (
        b"1000000000000000000000000000.000000001",
        Unit::Seconds,
        Err(DecimalFault::OutOfRange),
    ),
    (
        b"-1000000000000000000000000000000000000",
        Unit::Nanoseconds,
        Ok(-1000000000000000000000000000000000000),
    ),
    (b"today", Unit::Seconds, Err(DecimalFault::NotDecimal)),
];

#[test]
fn numbers_since_1970_are_exact_or_rejected(rt: HostRuntime) -> Result<(), Fail> {
    for (text, unit, expected) in EPOCHS {
        assert_eq!(rt; read_epoch(text, *unit), *expected, "{text:?}");
    }
    Ok(())
}
