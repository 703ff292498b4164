// Updates without quotes, as nearly all lines are. Each byte is read once: that it is no quote is known from what it spells.
ghost use Rattle.std.specs.Prelude.{◌≡◌, ◌<◌, ◌^◌, Ok, length, IfSome, neg_ℤ, pos};
ghost use Rattle.tilt_feed_line.specs.Lines.{input_named, keyed_line_said, line_said};
ghost use Rattle.tilt_feed_line.specs.Quick.{CellBefore, DigitsBefore, PlainlySays, update_said};
ghost use Rattle.tilt_lexer.specs.Word.{IsWord};

use crate::form::find_input;
use crate::key::Key;
use crate::line::{KeyedLine, Line};
use crate::plain::{is_plain, without_return};
use tilt_base::{Cell, read_cell};
use tilt_feed::Update;
use tilt_lexer::Name;
use tilt_text::until;

// At most so many digits are read. They spell a number below 2^64, whichever they are.
const MOST: usize = 19;

// The numbers below it are of 64 bits with a sign.
const LIMIT: u64 = 1 << 63;

// What a line says in a feed without keys. `None` says nothing of the line.
#[inline]
pub(crate) fn read_quick_line(line: &[u8], inputs: &[Name]) -> Option<Line>
    requires { length inputs.now < 2 ^ 32 }
    ensures { IfSome result (λ said. line_said inputs.now line.now ≡ Ok said) }
{
    read_update(without_return(line), inputs)
}

// What a line says in a feed with keys. `None` says nothing of the line.
#[inline]
pub(crate) fn read_quick_keyed_line<'a>(line: &'a [u8], inputs: &[Name]) -> Option<KeyedLine<'a>>
    requires { length inputs.now < 2 ^ 32 }
    ensures { IfSome result (λ said. keyed_line_said inputs.now line.now ≡ Ok said) }
{
    let (key, rest) = until(without_return(line), b',')?;
    if !is_plain(key) {
        return None;
    }
    let line = read_update(rest, inputs)?;
    let key = Key::new(key)?;
    Some(KeyedLine::OfKey { key, line })
}

// The update that bytes without quotes say.
#[inline]
fn read_update(bytes: &[u8], inputs: &[Name]) -> Option<Line>
    requires { length inputs.now < 2 ^ 32 }
    ensures { IfSome result (PlainlySays inputs.now bytes.now) }
{
    let (name, rest) = until(bytes, b',')?;
    let input = find_word(inputs, name)?;
    let (start, rest) = cell_before(rest)?;
    let (end, rest) = cell_before(rest)?;
    let value = read_cell(rest)?;
    let update = update_of(start, end, value)?;
    Some(Line::Update { input, update })
}

// The number of the input with the name, which is a word then.
#[inline]
fn find_word(inputs: &[Name], name: &[u8]) -> Option<u32>
    requires { length inputs.now < 2 ^ 32 }
    ensures { IfSome result (λ input. (input_named inputs.now name.now ≡ Ok input) × IsWord name.now) }
{
    let input = find_input(inputs, name).ok()?;
    // That the name is a word is known from here on.
    let _word = inputs[input as usize].bytes();
    Some(input)
}

// The update of an input that these cells say.
#[inline]
fn update_of(start: Cell, end: Cell, value: Cell) -> Option<Update>
    ensures { result ≡ update_said start end value }
{
    match (start, end, value) {
        (Some(start), Some(end), value) => Some(Update::Row { start, end, value }),
        (Some(start), None, Some(value)) => Some(Update::Value { start, value }),
        (Some(start), None, None) => Some(Update::NoValue { start }),
        (None, Some(watermark), None) => Some(Update::KnownUpTo { watermark }),
        _ => None,
    }
}

// The cell that the bytes before the first comma spell, if it has at most 19 digits and no plus, and the bytes after that comma.
#[inline]
fn cell_before(bytes: &[u8]) -> Option<(Cell, &[u8])>
    ensures { IfSome result (λ parts. CellBefore bytes.now parts.0 parts.1.now) }
{
    let [first, rest @ ..] = bytes else {
        return None;
    };
    match *first {
        b',' => Some((None, rest)),
        b'-' => {
            let (number, rest) = digits_before(rest)?;
            Some((Some(negative(number)), rest))
        }
        _ => {
            let (number, rest) = digits_before(bytes)?;
            Some((Some(number as i64), rest))
        }
    }
}

// The number with a minus.
#[inline]
fn negative(number: u64) -> i64
    requires { number < 2 ^ 63 }
    ensures { result ≡ neg_ℤ (pos number) }
{
    -(number as i64)
}

// The number below 2^63 that one to 19 digits before a comma spell, and the bytes after that comma.
#[inline]
fn digits_before(bytes: &[u8]) -> Option<(u64, &[u8])>
    ensures value { IfSome result (λ parts. DigitsBefore bytes.now parts.0 parts.1.now) }
    ensures small { IfSome result (λ parts. parts.0 < 2 ^ 63) }
{
    let mut number = 0;
    for at in 0..bytes.len().min(MOST) {
        let byte = bytes[at];
        if !byte.is_ascii_digit() {
            if byte != b',' || at == 0 {
                return None;
            }
            return Some((number, &bytes[at + 1..]));
        }
        number = number * 10 + u64::from(byte - b'0');
    }
    if bytes.len() <= MOST || bytes[MOST] != b',' || number >= LIMIT {
        return None;
    }
    Some((number, &bytes[MOST + 1..]))
}
