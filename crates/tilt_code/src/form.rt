// The words of an instruction, read.
ghost use Rattle.std.specs.List.{find};
ghost use Rattle.std.specs.Str.{bytes_eq};
ghost use Rattle.tilt_code.specs.Line.{one_word};
ghost use Rattle.tilt_code.specs.Reading.{const_at, form_at, if_at, instr_at, one_at, port_at, two_at, win_at, Reads};
ghost use Rattle.tilt_code.specs.declared.word.TheConstants.{ONES};

use crate::instr::Instr;
use crate::word::{Words, find_one, find_two};

// The instruction that the next words are. Words may be left.
pub(crate) fn read_instr(words: &mut Words<'_>) -> Option<Instr>
    ensures { Reads (instr_at words.old) result words.new }
{
    let form = words.next()?;
    read_form(form, words)
}

// The instruction of a form.
fn read_form(form: &[u8], words: &mut Words<'_>) -> Option<Instr>
    ensures { Reads (form_at form.now words.old) result words.new }
{
    if form == b"const".as_slice() {
        read_const(words)
    } else if form == b"null".as_slice() {
        Some(Instr::Null)
    } else if form == b"cell".as_slice() {
        Some(Instr::Argument)
    } else if form == b"port".as_slice() {
        read_port(words)
    } else if form == b"win".as_slice() {
        read_window(words)
    } else if form == b"if".as_slice() {
        read_if(words)
    } else {
        read_operator(form, words)
    }
}

// A constant.
fn read_const(words: &mut Words<'_>) -> Option<Instr>
    ensures { Reads (const_at words.old) result words.new }
{
    let number = words.number()?;
    Some(Instr::Const(number))
}

// The reading of a buffer.
fn read_port(words: &mut Words<'_>) -> Option<Instr>
    ensures { Reads (port_at words.old) result words.new }
{
    let buffer = words.named(b'b')?;
    let offset = words.offset()?;
    Some(Instr::Port { buffer, offset })
}

// A window.
fn read_window(words: &mut Words<'_>) -> Option<Instr>
    ensures { Reads (win_at words.old) result words.new }
{
    let reducer = words.reducer()?;
    let buffer = words.named(b'b')?;
    let from = words.offset()?;
    let to = words.offset()?;
    let map = words.map()?;
    if from >= to {
        return None;
    }
    Some(Instr::Win {
        reducer,
        buffer,
        from,
        to,
        map,
    })
}

// A choice.
fn read_if(words: &mut Words<'_>) -> Option<Instr>
    ensures { Reads (if_at words.old) result words.new }
{
    let c = words.named(b'r')?;
    let a = words.named(b'r')?;
    let b = words.named(b'r')?;
    Some(Instr::If(c, a, b))
}

// An operator on one register, or on two.
fn read_operator(form: &[u8], words: &mut Words<'_>) -> Option<Instr>
    ensures { Reads (one_at (find (λ op. bytes_eq (one_word op) form.now) ONES) form.now words.old) result words.new }
{
    match find_one(form) {
        Some(op) => {
            let a = words.named(b'r')?;
            Some(Instr::One(op, a))
        }
        None => read_two(form, words),
    }
}

// An operator on two registers.
fn read_two(form: &[u8], words: &mut Words<'_>) -> Option<Instr>
    ensures { Reads (two_at form.now words.old) result words.new }
{
    let op = find_two(form)?;
    let a = words.named(b'r')?;
    let b = words.named(b'r')?;
    Some(Instr::Two(op, a, b))
}
