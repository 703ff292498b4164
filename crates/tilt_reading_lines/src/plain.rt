// Lines without quotes, as nearly all lines are. They are split at their delimiters, which takes far less time than a reader of the crate
// `csv`.
ghost use Rattle.std.specs.Prelude.{◌≡◌, ◌≤◌, Some, OnOk, IfSome, drop, length, map};
ghost use Rattle.std.specs.List.{list_any};
ghost use Rattle.csv.specs.Records.{fields_of, trim_end, trim_start, trimmed};
ghost use Rattle.tilt_reading_lines.specs.Plain.{is_plain, is_special, without_return, words};
ghost use Rattle.tilt_reading_lines.specs.Records.{fields_of_line};

use csv::ByteRecord;
use std::alloc::AllocError as OutOfMemory;
use tilt_text::until;

// The line without a CR at its end, if its fields are what is between delimiters. A CR that is the delimiter ends no line.
#[tactic(auto, using(crate::proofs::PlainLines::plain_fields))]
pub(crate) fn plain_part(line: &[u8], delimiter: u8) -> Option<&[u8]>
    ensures { IfSome result (λ part. fields_of_line delimiter line.now ≡ Some (map trimmed (words delimiter part.now))) }
{
    let part = without_return(line);
    if delimiter != b'\r' && is_plain(part) {
        Some(part)
    } else {
        None
    }
}

// The bytes without a CR at their end.
pub(crate) fn without_return(bytes: &[u8]) -> &[u8]
    ensures { result.now ≡ without_return bytes.now }
{
    let Some((last, front)) = bytes.split_last() else {
        return bytes;
    };
    if *last == b'\r' { front } else { bytes }
}

// Whether there are bytes, none of them special, and the first isn't that of a byte order mark.
fn is_plain(bytes: &[u8]) -> bool
    ensures { result ≡ is_plain bytes.now }
{
    match bytes {
        [] => false,
        [first, ..] => *first != 0xEF && !has_special(bytes),
    }
}

// Whether a byte is a quote or ends a record.
fn has_special(bytes: &[u8]) -> bool
    ensures { result ≡ list_any is_special bytes.now }
{
    bytes.iter().any(|byte| is_special(*byte))
}

// Whether the byte is a quote or ends a record.
#[inline]
pub(crate) fn is_special(byte: u8) -> bool
    ensures { result ≡ is_special byte }
{
    byte == b'"' || byte == b'\n' || byte == b'\r'
}

// Makes the fields what is between delimiters, without the white space around it.
pub(crate) fn split_fields(
    bytes: &[u8],
    delimiter: u8,
    fields: &mut ByteRecord,
) -> Result<(), OutOfMemory>
    ensures { OnOk result (fields_of fields.new ≡ map trimmed (words delimiter bytes.now)) }
{
    fields.clear();
    let mut rest = bytes;
    while let Some((word, after)) = until(rest, delimiter) {
        fields.push_field(trim(word))?;
        rest = after;
    }
    fields.push_field(trim(rest))
}

// A field without the white space around it.
pub(crate) fn trim(field: &[u8]) -> &[u8]
    ensures { result.now ≡ trimmed field.now }
{
    let rest = &field[front_spaces(field)..];
    &rest[..back_start(rest)]
}

// How many bytes of white space a field starts with.
fn front_spaces(field: &[u8]) -> usize
    ensures value { drop result field.now ≡ trim_start field.now }
    ensures bound { result ≤ length field.now }
{
    'bytes: for at in 0..field.len() {
        if !field[at].is_ascii_whitespace() {
            return at;
        }
    }
    field.len()
}

// Where the white space at the end of a field starts.
fn back_start(field: &[u8]) -> usize
    ensures value { result ≡ trim_end field.now }
    ensures bound { result ≤ length field.now }
{
    let length = field.len();
    'bytes: for count in 0..length {
        if !field[length - count - 1].is_ascii_whitespace() {
            return length - count;
        }
    }
    0
}
