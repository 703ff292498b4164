// Dates, as texts and as moments.
use std::test::Fail;
use tilt_readings::{DateFault, read_date, write_date};

// A text, and the moment.
const DATES: &[(&[u8], Result<i128, DateFault>)] = &[
    (b"1970-01-01T00:00:00Z", Ok(0)),
    (b"2026-03-01T08:00:00.25Z", Ok(1772352000250000000)),
    (b"2026-03-01T08:00:00.25+01:00", Ok(1772348400250000000)),
    (b"2026-03-01T08:00:00.25-01:30", Ok(1772357400250000000)),
    (
        b"2026-03-01 08:00:00,250000000000z",
        Ok(1772352000250000000),
    ),
    (b"2024-02-29T23:59:59Z", Ok(1709251199000000000)),
    (b"2023-02-29T00:00:00Z", Err(DateFault::NoSuchTime)),
    (b"1900-02-29T00:00:00Z", Err(DateFault::NoSuchTime)),
    (b"2000-02-29T12:00:00Z", Ok(951825600000000000)),
    (b"1969-12-31T23:59:59.999999999Z", Ok(-1)),
    (b"0001-01-01T00:00:00Z", Ok(-62135596800000000000)),
    (b"0001-01-01T00:00:00+00:01", Err(DateFault::OutOfYears)),
    (b"9999-12-31T23:59:59.999999999Z", Ok(253402300799999999999)),
    (b"9999-12-31T23:59:59-00:01", Err(DateFault::OutOfYears)),
    (b"0000-01-01T00:00:00Z", Err(DateFault::NoSuchTime)),
    (b"2016-12-31T23:59:60Z", Err(DateFault::NoSuchTime)),
    (b"2026-03-01T24:00:00Z", Err(DateFault::NoSuchTime)),
    (b"2026-04-31T00:00:00Z", Err(DateFault::NoSuchTime)),
    (b"2026-13-01T00:00:00Z", Err(DateFault::NoSuchTime)),
    (b"2026-03-01T08:00:00+24:00", Err(DateFault::NoSuchTime)),
    (b"2026-03-01T08:00:00.0000000001Z", Err(DateFault::TooFine)),
    (b"2026-03-01t08:00:00Z", Err(DateFault::NotDate)),
    (b"2026-03-01T08:00:00", Err(DateFault::NotDate)),
    (b"2026-03-01T08:00Z", Err(DateFault::NotDate)),
    (b"2026-03-01", Err(DateFault::NotDate)),
    (b"2026-03-01T08:00:00.Z", Err(DateFault::NotDate)),
    (b"2026-03-01T08:00:00+0100", Err(DateFault::NotDate)),
    (b"", Err(DateFault::NotDate)),
    (b" 2026-03-01T08:00:00Z", Err(DateFault::NotDate)),
    (b"2026-03-01T08:00:00ZZ", Err(DateFault::NotDate)),
];

// A moment, how many decimals of a second it is to have, and the text.
const TEXTS: &[(i128, u8, Option<&[u8]>)] = &[
    (0, 0, Some(b"1970-01-01T00:00:00Z")),
    (1772352000250000000, 3, Some(b"2026-03-01T08:00:00.250Z")),
    (1772352000250000000, 0, Some(b"2026-03-01T08:00:00Z")),
    (-1, 9, Some(b"1969-12-31T23:59:59.999999999Z")),
    (951825600000000001, 6, Some(b"2000-02-29T12:00:00.000000Z")),
    (-62135596800000000000, 0, Some(b"0001-01-01T00:00:00Z")),
    (
        253402300799999999999,
        9,
        Some(b"9999-12-31T23:59:59.999999999Z"),
    ),
    (-62135596800000000001, 0, None),
    (253402300800000000000, 0, None),
];

#[test]
fn dates_are_read_and_written(rt: HostRuntime) -> Result<(), Fail> {
    for (text, expected) in DATES {
        assert_eq!(rt; read_date(text), *expected, "{text:?}");
    }
    for (moment, decimals, expected) in TEXTS {
        if *decimals <= 9 {
            let mut room = [0u8; 64];
            let end = write_date(*moment, *decimals, &mut room);
            assert_eq!(rt; end.and_then(|end| room.get(..end)), *expected, "{moment}");
        }
    }
    Ok(())
}
