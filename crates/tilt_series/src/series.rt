// The rows of a series file.
ghost use Rattle.tilt_series.specs.Records.{IsBetween, records_left};
ghost use Rattle.tilt_series.specs.Series.{Gives, rows_of, series_of};

use crate::bounds::{Bounds, free_stretch};
use crate::fault::{ReadRowsFault, SeriesFault};
use crate::records::{next_record, open};
use crate::row::{is_header, read_row};
use csv::{ByteRecord, Reader};
use std::alloc::Global;
use tilt_stream::Rows;

/// Two byte order marks, U+FEFF in UTF-8.
const TWO_MARKS: &[u8] = b"\xEF\xBB\xBF\xEF\xBB\xBF";

/// Most rows are spelled by this many bytes of the file or more, so that the room that is made for them at first is mostly enough.
/// Room that no row comes into is never touched.
const BYTES_A_ROW: usize = 16;

/// The rows of a series file, or its first fault (`Refused`). The first record is the header `start,end,value`, and each other is a
/// row. The crate `csv` reads the records, and takes more than RFC 4180: fields separated by commas, fields in quotes, records
/// ended by LF, CR or CRLF, empty lines skipped. One byte order mark at the beginning is passed over.
///
/// If `last_end` is given, the first row doesn't start below it. If `from` is given, no row starts below it; and if
/// `upto` is given, each row starts below it. `OutOfMemory` comes only if memory runs out.
pub fn read_rows(
    alloc: Global,
    bytes: &[u8],
    last_end: Option<i64>,
    from: Option<i64>,
    upto: Option<i64>,
) -> Result<Rows, ReadRowsFault>
    ensures { Gives result (series_of (record { last_end = last_end; from = from; upto = upto }) bytes.now) }
{
    if bytes.starts_with(TWO_MARKS) {
        return Err(ReadRowsFault::Refused(SeriesFault::BadHeader));
    }
    let mut reader = open(alloc, bytes);
    let mut fields = ByteRecord::new(alloc);
    if !next_record(&mut reader, &mut fields)? || !is_header(&fields) {
        return Err(ReadRowsFault::Refused(SeriesFault::BadHeader));
    }
    let bounds = Bounds {
        last_end,
        from,
        upto,
    };
    let room = bytes.len() / BYTES_A_ROW;
    read_after_header(alloc, &mut reader, &mut fields, bounds, room)
}

// The rows of the records that are left. There is room for so many at first.
fn read_after_header(
    alloc: Global,
    reader: &mut Reader<&[u8]>,
    fields: &mut ByteRecord,
    bounds: Bounds,
    room: usize,
) -> Result<Rows, ReadRowsFault>
    requires { IsBetween reader.old }
    ensures { Gives result (rows_of bounds 1 (records_left reader.old)) }
{
    let mut rows = Rows::with_capacity(alloc, room)?;
    let mut free = free_stretch(&bounds);
    while next_record(reader, fields)? {
        let read = read_row(fields, &bounds, &rows, free)?;
        rows.push(read)?;
        free.low = read.end;
    }
    Ok(rows)
}
