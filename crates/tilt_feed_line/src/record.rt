// From the bytes of a line to the fields of its only record.
ghost use Rattle.std.specs.Prelude.{◌≡◌, true, [], IfOk};
ghost use Rattle.std.specs.Bool.{OnTrue};
ghost use Rattle.csv.specs.Machine.{next_record};
ghost use Rattle.csv.specs.Reading.{default_config, error_kind, records, stops_reader, strip_bom};
ghost use Rattle.csv.specs.Records.{fields_of};
ghost use Rattle.csv.specs.declared.parser.State.TheVariants as st;
ghost use Rattle.tilt_feed_line.specs.Records.{IsOnly, IsReady, Takes, next_of};

use csv::{ByteRecord, Error, ErrorKind, Reader, ReaderBuilder};
use std::alloc::{AllocError as OutOfMemory, Global};

// Reads the record of a line, and returns whether it is the only one. Each call makes a reader of about 16 KiB.
#[inline(never)]
pub(crate) fn read_one_record(
    alloc: Global,
    line: &[u8],
    fields: &mut ByteRecord,
) -> Result<bool, OutOfMemory>
    ensures { IfOk result (λ is_only. IsOnly is_only (fields_of fields.new) (records default_config (strip_bom line.now))) }
{
    let mut reader = open(alloc, line);
    if !read_next(&mut reader, fields)? {
        return Ok(false);
    }
    // Takes no memory unless there is a second record.
    let mut second = ByteRecord::new(alloc);
    let found = read_next(&mut reader, &mut second)?;
    Ok(!found)
}

// A reader of the records of the bytes, after one byte order mark. A record may have any number of fields.
fn open(alloc: Global, bytes: &[u8]) -> Reader<&[u8]>
    ensures plain { IsReady result }
    ensures next { next_of result ≡ next_record default_config st.StartRecord [] [] (strip_bom bytes.now) }
{
    ReaderBuilder::new()
        .has_headers(false)
        .flexible(true)
        .from_reader(alloc, bytes)
}

// Reads the next record, and returns whether there was one.
fn read_next(reader: &mut Reader<&[u8]>, fields: &mut ByteRecord) -> Result<bool, OutOfMemory>
    requires { IsReady reader.old }
    ensures plain { IfOk result (λ found. OnTrue found (IsReady reader.new)) }
    ensures taken { IfOk result (λ found. Takes (next_of reader.old) found (fields_of fields.new) (next_of reader.new)) }
{
    let found = match reader.read_byte_record(fields) {
        Ok(found) => found,
        Err(error) => return Err(out_of_memory(&error)),
    };
    Ok(found)
}

// What an error of the reader means: bytes in memory can always be read, so there was no memory for the fields.
fn out_of_memory(error: &Error) -> OutOfMemory
    requires { stops_reader (error_kind error.now) ≡ true }
{
    match error.kind() {
        ErrorKind::Io(_) | ErrorKind::OutOfMemory => OutOfMemory,
        _ => unreachable!(),
    }
}
