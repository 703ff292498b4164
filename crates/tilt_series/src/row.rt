// One record as a row.
ghost use Rattle.std.specs.Prelude.{◌≡◌, ◌+◌, ◌<ℤ◌, ◌≤ℤ◌, neg_ℤ, length, option_map, IfNone, IfOk};
ghost use Rattle.std.specs.Option.{ForSome};
ghost use Rattle.csv.specs.Records.{fields_of};
ghost use Rattle.tilt_base.specs.declared.limits.TheConstants.{T};
ghost use Rattle.tilt_series.specs.Series.{bounds_after, is_header, row_of, fields_spelled, three_of, time_fault};
ghost use Rattle.tilt_series.specs.Stretch.{FitsBounds};

use crate::bounds::{Bounds, Stretch, is_below, is_past, is_time};
use crate::fault::SeriesFault;
use csv::ByteRecord;
use tilt_base::{Cell, read_cell, read_number};
use tilt_stream::{Row, Rows};

/// Whether the fields are `start`, `end` and `value`.
pub(crate) fn is_header(fields: &ByteRecord) -> bool
    ensures { result ≡ is_header (three_of (fields_of fields.now)) }
{
    match three_fields(fields) {
        Some((start, end, value)) => start == b"start".as_slice()
            && end == b"end".as_slice()
            && value == b"value".as_slice(),
        None => false,
    }
}

/// The row of a record that comes after some rows, or its first fault.
#[inline]
pub(crate) fn read_row(
    fields: &ByteRecord,
    bounds: &Bounds,
    rows: &Rows,
    free: Stretch,
) -> Result<Row, SeriesFault>
    requires { FitsBounds (bounds_after bounds.now rows.now) free.low free.high }
    ensures read { result ≡ row_of (bounds_after bounds.now rows.now) (length rows.now + 1) (fields_of fields.now) }
    ensures low { IfOk result (λ s. neg_ℤ T ≤ℤ s.start) }
    ensures high { IfOk result (λ s. s.end ≤ℤ T) }
    ensures after { IfOk result (λ s. ForSome (bounds_after bounds.now rows.now).last_end (λ end. end ≤ℤ s.start)) }
    ensures cut { IfOk result (λ s. ForSome bounds.now.from (λ from. from ≤ℤ s.start)) }
{
    let row = rows.as_slice().len() as u64 + 1;
    let (start, end, value) = read_fields(fields, row)?;
    // Nearly every row passes this test, which looks at no bound that may be absent. A row that starts below `upto` and ends above
    // it has no fault either, and is looked at by each bound.
    if free.low <= start && start < end && end <= free.high {
        return Ok(Row { start, end, value });
    }
    match time_fault(start, end, row, &bounds.after(rows)) {
        Some(fault) => Err(fault),
        None => Ok(Row { start, end, value }),
    }
}

// The first fault of the times of a row, if there is one. It's called only for a row that doesn't lie within the free ticks.
#[cold]
#[inline(never)]
fn time_fault(start: i64, end: i64, row: u64, bounds: &Bounds) -> Option<SeriesFault>
    ensures fault { result ≡ time_fault bounds.now row start end }
    ensures low { IfNone result (neg_ℤ T ≤ℤ start) }
    ensures high { IfNone result (end ≤ℤ T) }
    ensures some_ticks { IfNone result (start <ℤ end) }
    ensures after { IfNone result (ForSome bounds.now.last_end (λ last. last ≤ℤ start)) }
    ensures cut { IfNone result (ForSome bounds.now.from (λ from. from ≤ℤ start)) }
{
    if !is_time(start) || !is_time(end) {
        Some(SeriesFault::TimeRange { row })
    } else if end <= start {
        Some(SeriesFault::EmptyInterval { row })
    } else if is_below(start, bounds.last_end) {
        Some(SeriesFault::OutOfOrder { row })
    } else if is_below(start, bounds.from) {
        Some(SeriesFault::RowBeforeCut { row })
    } else if is_past(start, bounds.upto) {
        Some(SeriesFault::RowPastCut { row })
    } else {
        None
    }
}

// The start, the end and the value that the fields spell, or the first fault of them.
#[inline]
fn read_fields(fields: &ByteRecord, row: u64) -> Result<(i64, i64, Cell), SeriesFault>
    ensures { result ≡ fields_spelled row (fields_of fields.now) }
{
    let (start, end, value) = three_fields(fields).ok_or(SeriesFault::BadFields { row })?;
    let start = read_number(start).ok_or(SeriesFault::BadField { row, field: 1 })?;
    let end = read_number(end).ok_or(SeriesFault::BadField { row, field: 2 })?;
    let value = read_cell(value).ok_or(SeriesFault::BadField { row, field: 3 })?;
    Ok((start, end, value))
}

// The fields of a record that has three.
#[inline]
fn three_fields(fields: &ByteRecord) -> Option<(&[u8], &[u8], &[u8])>
    ensures { option_map (λ f. (f.0.now, f.1.now, f.2.now)) result ≡ three_of (fields_of fields.now) }
{
    if fields.len() != 3 {
        return None;
    }
    Some((fields.get(0)?, fields.get(1)?, fields.get(2)?))
}
