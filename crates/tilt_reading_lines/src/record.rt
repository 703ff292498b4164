// From the bytes of a line to the fields of its only record.
ghost use Rattle.std.specs.Prelude.{◌≡◌, true, [], IfOk};
ghost use Rattle.std.specs.Bool.{OnTrue};
ghost use Rattle.csv.specs.Machine.{next_record};
ghost use Rattle.csv.specs.Reading.{error_kind, records, stops_reader, strip_bom};
ghost use Rattle.csv.specs.Records.{fields_of};
ghost use Rattle.csv.specs.declared.parser.State.TheVariants as st;
ghost use Rattle.tilt_reading_lines.specs.Records.{IsFieldsOf, IsOnly, IsReady, Takes, config_of, next_of};

use crate::plain::{plain_part, split_fields};
use csv::{ByteRecord, Error, ErrorKind, Reader, ReaderBuilder};
use std::alloc::{AllocError as OutOfMemory, Global};

// Reads the fields of a line, without the white space around them, and returns whether the line is one record.
pub(crate) fn read_fields(
    alloc: Global,
    delimiter: u8,
    line: &[u8],
    fields: &mut ByteRecord,
) -> Result<bool, OutOfMemory>
    ensures { IfOk result (λ is_only. IsFieldsOf is_only (fields_of fields.new) delimiter line.now) }
{
    match plain_part(line, delimiter) {
        Some(part) => {
            split_fields(part, delimiter, fields)?;
            Ok(true)
        }
        None => read_quoted(alloc, delimiter, line, fields),
    }
}

// The same of a line that may have quotes.
fn read_quoted(
    alloc: Global,
    delimiter: u8,
    line: &[u8],
    fields: &mut ByteRecord,
) -> Result<bool, OutOfMemory>
    ensures { IfOk result (λ is_only. IsFieldsOf is_only (fields_of fields.new) delimiter line.now) }
{
    let is_only = read_one_record(alloc, delimiter, line, fields)?;
    fields.trim()?;
    Ok(is_only)
}

// Reads the record of a line, and returns whether it is the only one. Each call makes a reader of about 16 KiB.
#[inline(never)]
fn read_one_record(
    alloc: Global,
    delimiter: u8,
    line: &[u8],
    fields: &mut ByteRecord,
) -> Result<bool, OutOfMemory>
    ensures { IfOk result (λ is_only.
        IsOnly is_only (fields_of fields.new) (records (config_of delimiter) (strip_bom line.now))) }
{
    let mut reader = open(alloc, delimiter, line);
    if !read_next(delimiter, &mut reader, fields)? {
        return Ok(false);
    }
    // Takes no memory unless there is a second record.
    let mut second = ByteRecord::new(alloc);
    let found = read_next(delimiter, &mut reader, &mut second)?;
    Ok(!found)
}

// A reader of the records of the bytes, after one byte order mark. A record may have any number of fields.
fn open(alloc: Global, delimiter: u8, bytes: &[u8]) -> Reader<&[u8]>
    ensures plain { IsReady delimiter result }
    ensures next { next_of delimiter result ≡ next_record (config_of delimiter) st.StartRecord [] [] (strip_bom bytes.now) }
{
    ReaderBuilder::new()
        .has_headers(false)
        .flexible(true)
        .delimiter(delimiter)
        .from_reader(alloc, bytes)
}

// Reads the next record, and returns whether there was one.
fn read_next(
    delimiter: u8,
    reader: &mut Reader<&[u8]>,
    fields: &mut ByteRecord,
) -> Result<bool, OutOfMemory>
    requires { IsReady delimiter reader.old }
    ensures plain { IfOk result (λ found. OnTrue found (IsReady delimiter reader.new)) }
    ensures taken { IfOk result (λ found.
        Takes delimiter (next_of delimiter reader.old) found (fields_of fields.new) (next_of delimiter reader.new)) }
{
    let found = match reader.read_byte_record(fields) {
        Ok(found) => found,
        Err(error) => return Err(out_of_memory(&error)),
    };
    Ok(found)
}

// What an error of the reader means: bytes in memory can always be read, so there was no memory for the fields.
fn out_of_memory(error: &Error) -> OutOfMemory
    requires { stops_reader (error_kind error.now) ≡ true }
{
    match error.kind() {
        ErrorKind::Io(_) | ErrorKind::OutOfMemory => OutOfMemory,
        _ => unreachable!(),
    }
}
