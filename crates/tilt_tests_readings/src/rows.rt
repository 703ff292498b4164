// Rows with dates and decimals.
use std::test::Fail;
use tilt_readings::{Clock, Closed};
use tilt_row_text::{RowStyle, Times, second_decimals, write_begun, write_row};
use tilt_stream::Snap;

// 2026-03-01T00:00:00Z.
const MIDNIGHT: i128 = 1_772_323_200_000_000_000;

// A clock from there, with ticks of so many nanoseconds.
fn clock_of(length: u64) -> Clock {
    Clock {
        origin: MIDNIGHT,
        length,
        closed: Closed::Left,
    }
}

// Times by that clock.
fn dates_of(length: u64) -> Times {
    Times::Dates {
        clock: clock_of(length),
    }
}

// Rows with such times, and with so many decimals.
fn style_of(times: Times, decimals: u8) -> RowStyle {
    RowStyle { times, decimals }
}

#[test]
fn rows_have_dates_and_decimals(rt: HostRuntime) -> Result<(), Fail> {
    let mut room = [0u8; 256];
    let row = Snap {
        start: 21600,
        end: 21605,
        value: Some(-2050),
    };
    let seconds = style_of(dates_of(1_000_000_000), 2);
    let end = write_row(seconds, &row, &mut room);
    assert_eq!(rt;
        room.get(..end),
        Some(b"2026-03-01T06:00:00Z,2026-03-01T06:00:05Z,-20.50\n".as_slice())
    );
    let end = write_begun(seconds, -1, 5, &mut room);
    assert_eq!(rt;
        room.get(..end),
        Some(b"2026-02-28T23:59:59Z,,0.05\n".as_slice())
    );
    let halves = style_of(dates_of(500_000_000), 0);
    let row = Snap {
        start: 43201,
        end: 43202,
        value: Some(7),
    };
    let end = write_row(halves, &row, &mut room);
    assert_eq!(rt;
        room.get(..end),
        Some(b"2026-03-01T06:00:00.500Z,2026-03-01T06:00:01.000Z,7\n".as_slice())
    );
    let ticks = style_of(Times::Ticks, 0);
    let end = write_row(ticks, &row, &mut room);
    assert_eq!(rt; room.get(..end), Some(b"43201,43202,7\n".as_slice()));
    assert!(rt; ticks.is_plain() && !halves.is_plain());
    Ok(())
}

#[test]
fn a_time_without_a_date_is_its_tick(rt: HostRuntime) -> Result<(), Fail> {
    let mut room = [0u8; 256];
    let row = Snap {
        start: 0,
        end: 4_000_000_000_000,
        value: Some(1),
    };
    let end = write_row(style_of(dates_of(1_000_000_000), 0), &row, &mut room);
    assert_eq!(rt;
        room.get(..end),
        Some(b"2026-03-01T00:00:00Z,4000000000000,1\n".as_slice())
    );
    Ok(())
}

#[test]
fn seconds_have_the_decimals_of_the_clock(rt: HostRuntime) -> Result<(), Fail> {
    for (length, expected) in [
        (60_000_000_000, 0),
        (500_000_000, 3),
        (250_000, 6),
        (1, 9),
        (1_000_000_001, 9),
    ] {
        assert_eq!(rt; second_decimals(clock_of(length)), expected, "{length}");
    }
    Ok(())
}
