// Lines without quotes that aren't read in one pass, such as a watermark of all inputs. They are split at their commas, which takes no
// memory and far less time than a reader of the crate `csv`.
ghost use Rattle.std.specs.Prelude.{◌≡◌, ◌≢◌, ◌<◌, ◌≤◌, ◌^◌, [], ◌∷◌, length, IsTrue, IsSome, IfSome, MatchOption};
ghost use Rattle.std.specs.List.{list_any};
ghost use Rattle.csv.specs.Reading.{default_config, records, strip_bom};
ghost use Rattle.tilt_feed_line.specs.Lines.{fields_said, keyed_fields_said};
ghost use Rattle.tilt_feed_line.specs.Plain.{is_plain, is_special, without_return, words};

use crate::fault::LineFault;
use crate::form::{Fields, read_keyed_line, read_line};
use crate::line::{KeyedLine, Line};
use tilt_lexer::Name;
use tilt_text::until;

// The line without a CR at its end, if its only record is the fields between its commas.
#[tactic(auto, using(crate::proofs::PlainLines::plain_line))]
pub(crate) fn plain_part(line: &[u8]) -> Option<&[u8]>
    ensures words { IfSome result (λ part. records default_config (strip_bom line.now) ≡ words part.now ∷ []) }
    ensures some { IsTrue (is_plain (without_return line.now)) → IsSome result }
{
    let part = without_return(line);
    if is_plain(part) { Some(part) } else { None }
}

// The bytes without a CR at their end.
pub(crate) fn without_return(bytes: &[u8]) -> &[u8]
    ensures { result.now ≡ without_return bytes.now }
{
    let Some((last, front)) = bytes.split_last() else {
        return bytes;
    };
    if *last == b'\r' { front } else { bytes }
}

// Whether there are bytes, none of them special, and the first isn't that of a byte order mark.
pub(crate) fn is_plain(bytes: &[u8]) -> bool
    ensures { result ≡ is_plain bytes.now }
{
    match bytes {
        [] => false,
        [first, ..] => *first != 0xEF && !has_special(bytes),
    }
}

// Whether a byte is a quote or ends a record.
fn has_special(bytes: &[u8]) -> bool
    ensures { result ≡ list_any is_special bytes.now }
{
    bytes
        .iter()
        .any(|byte| *byte == b'"' || *byte == b'\n' || *byte == b'\r')
}

// What the fields between commas say in a feed without keys.
pub(crate) fn read_words(bytes: &[u8], inputs: &[Name]) -> Result<Line, LineFault>
    requires { length inputs.now < 2 ^ 32 }
    ensures { result ≡ fields_said inputs.now (words bytes.now) }
{
    match split_fields(bytes) {
        None => Err(LineFault::FieldCount { expected: 4 }),
        Some(fields) => read_line(inputs, &fields),
    }
}

// What the fields between commas say in a feed with keys.
pub(crate) fn read_keyed_words<'a>(
    bytes: &'a [u8],
    inputs: &[Name],
) -> Result<KeyedLine<'a>, LineFault>
    requires { length inputs.now < 2 ^ 32 }
    ensures { result ≡ keyed_fields_said inputs.now (words bytes.now) }
{
    match split_keyed_fields(bytes) {
        None => Err(LineFault::FieldCount { expected: 5 }),
        Some((key, fields)) => read_keyed_line(inputs, key, &fields),
    }
}

// The key and the four fields after it, if there are exactly five words.
fn split_keyed_fields(bytes: &[u8]) -> Option<(&[u8], Fields<'_>)>
    ensures { MatchOption result (length (words bytes.now) ≢ 5) (λ found. words bytes.now
        ≡ found.0.now ∷ found.1.name.now ∷ found.1.start.now ∷ found.1.end.now ∷ found.1.value.now ∷ []) }
{
    let (key, rest) = split_word(bytes)?;
    let fields = split_fields(rest)?;
    Some((key, fields))
}

// The four fields, if there are exactly four words.
fn split_fields(bytes: &[u8]) -> Option<Fields<'_>>
    ensures { MatchOption result (length (words bytes.now) ≢ 4) (λ fields. words bytes.now
        ≡ fields.name.now ∷ fields.start.now ∷ fields.end.now ∷ fields.value.now ∷ []) }
{
    let (name, rest) = split_word(bytes)?;
    let (start, rest) = split_word(rest)?;
    let (end, value) = split_word(rest)?;
    match split_word(value) {
        Some(_) => None,
        None => Some(Fields {
            name,
            start,
            end,
            value,
        }),
    }
}

// The first word and the bytes of the others; `None` if the bytes are the only word.
fn split_word(bytes: &[u8]) -> Option<(&[u8], &[u8])>
    ensures { MatchOption result (words bytes.now ≡ bytes.now ∷ [])
        (λ parts. (words bytes.now ≡ parts.0.now ∷ words parts.1.now) × (1 ≤ length (words parts.1.now))) }
{
    until(bytes, b',')
}
