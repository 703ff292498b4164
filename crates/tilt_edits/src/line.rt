// A line of a text of edits.
ghost use Rattle.std.specs.Prelude.{◌≡◌, ◌||◌, ◌==◌, ◌<◌, ◌^◌, length, Option, Some, None, MatchOption};
ghost use Rattle.std.specs.List.{position};
ghost use Rattle.std.specs.Str.{bytes_eq};
ghost use Rattle.tilt_edits.specs.Edits.{edit_by, edit_of, fields_of, row_of, times_of, until_blank};

use crate::edit::Edit;
use tilt_base::{Cell, T, read_cell, read_number};
use tilt_lexer::Name;
use tilt_stream::Row;
use tilt_text::until;

// The edit that a line says, without its end.
pub(crate) fn edit_of(line: &[u8], inputs: &[Name]) -> Option<Edit>
    requires { length inputs.now < 2 ^ 32 }
    ensures { result ≡ edit_of inputs.now line.now }
{
    let (word, rest) = until_blank(line)?;
    let (name, fields) = until_blank(rest)?;
    let input = input_named(name, inputs)?;
    edit_by(word, input, fields)
}

// The word before the first space or tab, and the bytes after that.
fn until_blank(bytes: &[u8]) -> Option<(&[u8], &[u8])>
    ensures { MatchOption result (until_blank bytes.now ≡ None)
        (λ parts. until_blank bytes.now ≡ Some (parts.0.now, parts.1.now)) }
{
    let at = blank_in(bytes)?;
    Some((&bytes[..at], &bytes[at + 1..]))
}

// The first place of a space or a tab.
fn blank_in(bytes: &[u8]) -> Option<usize>
    ensures { result ≡ position (λ byte. byte == 32 || byte == 9) bytes.now }
{
    bytes
        .iter()
        .position(|byte| *byte == b' ' || *byte == b'\t')
}

// The number of the input of that name, counted from 0.
fn input_named(name: &[u8], inputs: &[Name]) -> Option<u32>
    requires { length inputs.now < 2 ^ 32 }
    ensures { result ≡ position (bytes_eq name.now) inputs.now }
{
    let at = place_of(name, inputs)?;
    Some(at as u32)
}

// The place of the name.
fn place_of(name: &[u8], inputs: &[Name]) -> Option<usize>
    ensures { result ≡ position (bytes_eq name.now) inputs.now }
{
    inputs.iter().position(|input| name == input.bytes())
}

// The edit of an input, by its word and the fields of its row.
fn edit_by(word: &[u8], input: u32, fields: &[u8]) -> Option<Edit>
    ensures { result ≡ edit_by word.now input fields.now }
{
    if word == b"add".as_slice() {
        let row = fields_of(fields)?;
        Some(Edit::Add { input, row })
    } else if word == b"remove".as_slice() {
        let Row { start, end, .. } = times_of(fields)?;
        Some(Edit::Remove { input, start, end })
    } else if word == b"set".as_slice() {
        let row = fields_of(fields)?;
        Some(Edit::Set { input, row })
    } else {
        None
    }
}

// The row that `s,e` says, which is null.
fn times_of(fields: &[u8]) -> Option<Row>
    ensures { result ≡ times_of fields.now }
{
    let (start, end) = until(fields, b',')?;
    let start = read_number(start)?;
    let end = read_number(end)?;
    row_of(start, end, None)
}

// The row that `s,e,v` says.
fn fields_of(fields: &[u8]) -> Option<Row>
    ensures { result ≡ fields_of fields.now }
{
    let (start, rest) = until(fields, b',')?;
    let (end, value) = until(rest, b',')?;
    let start = read_number(start)?;
    let end = read_number(end)?;
    let value = read_cell(value)?;
    row_of(start, end, value)
}

// The row of these times and this value, if the times are in `-T..=T` and in order.
fn row_of(start: i64, end: i64, value: Cell) -> Option<Row>
    ensures { result ≡ row_of start end value }
{
    if -T <= start && start < end && end <= T {
        Some(Row { start, end, value })
    } else {
        None
    }
}
