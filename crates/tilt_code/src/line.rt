// The lines of a listing, and how one is read.
ghost use Rattle.std.specs.Prelude.{◌≡◌, option_map, IfOk};
ghost use Rattle.tilt_code.specs.Reading.{grid_of, head_at, input_line, is_input_name, is_reserved, is_stretch};
ghost use Rattle.tilt_code.specs.Reading.{last_word, line_of, other_at, pieces, step_at, title_at, whole_line};
ghost use Rattle.tilt_code.specs.Reading.{words_line, Reads};

use crate::form::read_instr;
use crate::instr::Instr;
use crate::word::{Words, named};
use std::alloc::{AllocError as OutOfMemory, Global};
use tilt_base::{Grid, WIDE};
use tilt_lexer::{Name, is_word, reserved};

// A line of a listing.
#[derive(Debug, Drop)]
pub(crate) enum Line {
    // `tilt 1`, the first line.
    Title,
    // `input x`.
    Input(Name),
    // `loop 0 6 2 0`: the ticks before and at the end of the stretch, and the period and the offset of the grid.
    Head { lo: i64, hi: i64, grid: Grid },
    // `map`.
    Map,
    // `r0 = null`.
    Step { register: u32, instr: Instr },
    // `end`, after a map and after a body.
    End,
}

// The line with this text, or `None` if it is no line's text.
pub(crate) fn read_line(alloc: Global, text: &[u8]) -> Result<Option<Line>, OutOfMemory>
    ensures { IfOk result (λ line. line ≡ line_of (pieces 32 text.now)) }
{
    let mut words = Words::new(text);
    match words.next() {
        None => Ok(None),
        Some(first) => read_words(alloc, first, &mut words),
    }
}

// The line with these words, of which the first is given.
fn read_words(
    alloc: Global,
    first: &[u8],
    words: &mut Words<'_>,
) -> Result<Option<Line>, OutOfMemory>
    ensures { IfOk result (λ line. line ≡ words_line first.now words.old) }
{
    if first == b"input".as_slice() {
        match last_word(words) {
            None => Ok(None),
            Some(name) => input_line(alloc, name),
        }
    } else {
        Ok(whole_line(first, words))
    }
}

// The next word, if it is the last.
fn last_word<'a>(words: &mut Words<'a>) -> Option<&'a [u8]>
    ensures { option_map (λ word. word.now) result ≡ last_word words.old }
{
    let word = words.next()?;
    if words.is_empty() { Some(word) } else { None }
}

// The input's line, if it may have the name.
fn input_line(alloc: Global, name: &[u8]) -> Result<Option<Line>, OutOfMemory>
    ensures { IfOk result (λ line. line ≡ input_line name.now) }
{
    if !is_input_name(name) {
        return Ok(None);
    }
    match Name::read(alloc, name)? {
        None => Ok(None),
        Some(name) => Ok(Some(Line::Input(name))),
    }
}

// Whether an input may have the name.
fn is_input_name(name: &[u8]) -> bool
    ensures { result ≡ is_input_name name.now }
{
    is_word(name) && !is_reserved(name)
}

// Whether the bytes are a reserved word.
fn is_reserved(bytes: &[u8]) -> bool
    ensures { result ≡ is_reserved bytes.now }
{
    reserved(bytes)
}

// A line other than an input's, of which the first word is given, and no words are left.
fn whole_line(first: &[u8], words: &mut Words<'_>) -> Option<Line>
    ensures { result ≡ whole_line first.now words.old }
{
    let line = read_other(first, words)?;
    if words.is_empty() { Some(line) } else { None }
}

// A line other than an input's, of which the first word is given. Words may be left.
fn read_other(first: &[u8], words: &mut Words<'_>) -> Option<Line>
    ensures { Reads (other_at first.now words.old) result words.new }
{
    if first == b"tilt".as_slice() {
        read_title(words)
    } else if first == b"loop".as_slice() {
        read_head(words)
    } else if first == b"map".as_slice() {
        Some(Line::Map)
    } else if first == b"end".as_slice() {
        Some(Line::End)
    } else {
        read_step(first, words)
    }
}

// The first line of a listing.
fn read_title(words: &mut Words<'_>) -> Option<Line>
    ensures { Reads (title_at words.old) result words.new }
{
    let version = words.next()?;
    if version == b"1".as_slice() {
        Some(Line::Title)
    } else {
        None
    }
}

// The first line of a loop.
fn read_head(words: &mut Words<'_>) -> Option<Line>
    ensures { Reads (head_at words.old) result words.new }
{
    let lo = words.number()?;
    let hi = words.number()?;
    let period = words.number()?;
    let offset = words.number()?;
    let grid = grid_of(period, offset)?;
    if is_stretch(lo, hi) {
        Some(Line::Head { lo, hi, grid })
    } else {
        None
    }
}

// The grid, if the numbers bound one.
fn grid_of(period: i64, offset: i64) -> Option<Grid>
    ensures { result ≡ grid_of period offset }
{
    Grid::new(period, offset)
}

// Whether the ticks bound a stretch of time that a loop may fill.
fn is_stretch(lo: i64, hi: i64) -> bool
    ensures { result ≡ is_stretch lo hi }
{
    -WIDE <= lo && lo < hi && hi <= WIDE
}

// The line of an instruction, of which the first word is given.
fn read_step(first: &[u8], words: &mut Words<'_>) -> Option<Line>
    ensures { Reads (step_at first.now words.old) result words.new }
{
    let register = named(b'r', first)?;
    let sign = words.next()?;
    let instr = read_instr(words)?;
    if sign == b"=".as_slice() {
        Some(Line::Step { register, instr })
    } else {
        None
    }
}
