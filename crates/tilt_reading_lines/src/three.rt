// Lines of three fields without quotes. Each byte is read once, and nothing is copied.
ghost use Rattle.std.specs.Prelude.{◌≡◌, Some, IfSome};
ghost use Rattle.std.specs.List.{list_any, position};
ghost use Rattle.tilt_reading_lines.specs.LineFields.{fields_in};
ghost use Rattle.tilt_reading_lines.specs.Plain.{CleanBefore, ends_field, starts_with_mark};
ghost use Rattle.tilt_reading_lines.specs.Records.{fields_of_line};

use crate::line_fields::LineFields;
use crate::plain::{is_special, trim, without_return};

// The fields of a line. `None` says nothing of the line.
pub(crate) fn cut_three(line: &[u8], delimiter: u8) -> Option<LineFields<'_>>
    ensures { IfSome result (λ fields. fields_of_line delimiter line.now ≡ Some (fields_in fields)) }
{
    let part = without_return(line);
    if is_special(delimiter) || starts_with_mark(part) {
        return None;
    }
    let (first, rest) = clean_before(part, delimiter)?;
    let (second, third) = clean_before(rest, delimiter)?;
    if has_end(third, delimiter) {
        return None;
    }
    Some(LineFields::Three(trim(first), trim(second), trim(third)))
}

// The bytes before the first delimiter, if no byte of them is special, and the bytes after it.
fn clean_before(bytes: &[u8], delimiter: u8) -> Option<(&[u8], &[u8])>
    ensures { IfSome result (λ parts. CleanBefore delimiter bytes.now parts.0.now parts.1.now) }
{
    let at = end_of(bytes, delimiter)?;
    if bytes[at] != delimiter {
        return None;
    }
    Some((&bytes[..at], &bytes[at + 1..]))
}

// The place of the first byte that is a delimiter or special.
fn end_of(bytes: &[u8], delimiter: u8) -> Option<usize>
    ensures { result ≡ position (ends_field delimiter) bytes.now }
{
    bytes
        .iter()
        .position(|byte| *byte == delimiter || is_special(*byte))
}

// Whether a byte is a delimiter or special.
fn has_end(bytes: &[u8], delimiter: u8) -> bool
    ensures { result ≡ list_any (ends_field delimiter) bytes.now }
{
    bytes
        .iter()
        .any(|byte| *byte == delimiter || is_special(*byte))
}

// Whether the first byte is that of a byte order mark.
fn starts_with_mark(bytes: &[u8]) -> bool
    ensures { result ≡ starts_with_mark bytes.now }
{
    matches!(bytes, [0xEF, ..])
}
