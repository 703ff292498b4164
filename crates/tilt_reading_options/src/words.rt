// The options whose texts are one of a few, and the bytes between and in fields.
ghost use Rattle.std.specs.Prelude.{◌≡◌};
ghost use Rattle.tilt_reading_options.specs.Words.{closed_named, delimiter_named, fold_named, mark_named, only_byte, separates};
ghost use Rattle.tilt_reading_options.specs.Words.{ties_named, unit_named};

use tilt_conventions::Ties;
use tilt_readings::{Closed, Unit};
use tilt_zones::Fold;

// What a number since 1970 counts.
pub(crate) fn find_unit(text: &[u8]) -> Option<Unit>
    ensures { result ≡ unit_named text.now }
{
    match text {
        b"s" => Some(Unit::Seconds),
        b"ms" => Some(Unit::Milliseconds),
        b"us" => Some(Unit::Microseconds),
        b"ns" => Some(Unit::Nanoseconds),
        _ => None,
    }
}

// Which end of a tick belongs to it.
pub(crate) fn find_closed(text: &[u8]) -> Option<Closed>
    ensures { result ≡ closed_named text.now }
{
    match text {
        b"left" => Some(Closed::Left),
        b"right" => Some(Closed::Right),
        _ => None,
    }
}

// Which of several readings in one tick counts.
pub(crate) fn find_ties(text: &[u8]) -> Option<Ties>
    ensures { result ≡ ties_named text.now }
{
    if text == b"first".as_slice() {
        Some(Ties::First)
    } else if text == b"last".as_slice() {
        Some(Ties::Last)
    } else if text == b"spread".as_slice() {
        Some(Ties::Spread)
    } else if text == b"refuse".as_slice() {
        Some(Ties::Refuse)
    } else {
        None
    }
}

// Which moment a local time means that clocks skip or show twice.
pub(crate) fn find_fold(text: &[u8]) -> Option<Fold>
    ensures { result ≡ fold_named text.now }
{
    if text == b"first".as_slice() {
        return Some(Fold::First);
    }
    if text == b"second".as_slice() {
        return Some(Fold::Second);
    }
    None
}

// The byte between fields.
pub(crate) fn find_delimiter(text: &[u8]) -> Option<u8>
    ensures { result ≡ delimiter_named text.now }
{
    if text == b"\\t".as_slice() {
        Some(b'\t')
    } else {
        only_byte(text)
    }
}

// The only byte of a text, if it can be between fields.
fn only_byte(text: &[u8]) -> Option<u8>
    ensures { result ≡ only_byte text.now }
{
    match text {
        [byte] if separates(*byte) => Some(*byte),
        _ => None,
    }
}

// Whether a byte can be between fields.
fn separates(byte: u8) -> bool
    ensures { result ≡ separates byte }
{
    byte.is_ascii() && !(byte == b'"' || byte == b'\r' || byte == b'\n')
}

// The mark before the fraction of a number.
pub(crate) fn find_mark(text: &[u8]) -> Option<u8>
    ensures { result ≡ mark_named text.now }
{
    match text {
        b"." => Some(b'.'),
        b"," => Some(b','),
        _ => None,
    }
}
