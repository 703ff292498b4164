// The records of a series file, one after another.
ghost use Rattle.std.specs.Prelude.{◌≡◌, true, IfOk};
ghost use Rattle.std.specs.Bool.{OnTrue};
ghost use Rattle.csv.specs.Reading.{default_config, error_kind, records, stops_reader, strip_bom};
ghost use Rattle.csv.specs.Records.{fields_of};
ghost use Rattle.tilt_series.specs.Records.{IsBetween, TakesFirst, records_left};

use csv::{ByteRecord, Error, ErrorKind, Reader, ReaderBuilder};
use std::alloc::{AllocError as OutOfMemory, Global};

/// A reader of the records of the bytes, after one byte order mark. A record may have any number of fields.
pub(crate) fn open(alloc: Global, bytes: &[u8]) -> Reader<&[u8]>
    ensures between { IsBetween result }
    ensures left { records_left result ≡ records default_config (strip_bom bytes.now) }
{
    ReaderBuilder::new()
        .has_headers(false)
        .flexible(true)
        .from_reader(alloc, bytes)
}

/// Reads the next record, and returns whether there was one.
pub(crate) fn next_record(
    reader: &mut Reader<&[u8]>,
    fields: &mut ByteRecord,
) -> Result<bool, OutOfMemory>
    requires { IsBetween reader.old }
    ensures between { IfOk result (λ found. OnTrue found (IsBetween reader.new)) }
    ensures taken { IfOk result (λ found. TakesFirst found (records_left reader.old) (fields_of fields.new) (records_left reader.new)) }
{
    let found = match reader.read_byte_record(fields) {
        Ok(found) => found,
        Err(error) => return Err(out_of_memory(&error)),
    };
    Ok(found)
}

// What an error of the reader or of memory means: bytes in memory can be read, so memory ran out.
fn out_of_memory(error: &Error) -> OutOfMemory
    requires { stops_reader (error_kind error.now) ≡ true }
{
    match error.kind() {
        ErrorKind::Io(_) | ErrorKind::OutOfMemory => OutOfMemory,
        _ => unreachable!(),
    }
}
