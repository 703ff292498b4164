// The listing of a code.
ghost use Rattle.std.specs.Prelude.{◌≡◌, ◌++◌, [], ◌∷◌, map, flat_map, codes, IfOk, OnOk};
ghost use Rattle.std.specs.Fmt.{decimal, signed_decimal};
ghost use Rattle.tilt_base.specs.Reduce.{reducer_word};
ghost use Rattle.tilt_code.specs.declared.line.Line.TheVariants.{Head, Input, Step};
ghost use Rattle.tilt_code.specs.Line.{buffer_word, instr_words, line_text, one_word, spaced, two_word};
ghost use Rattle.tilt_code.specs.Listing.{block_lines, ended, listing, loop_lines, map_lines};

use crate::code::Code;
use crate::instr::Instr;
use crate::loops::Loop;
use std::alloc::{AllocError as OutOfMemory, Global};
use tilt_base::{Grid, Op1, Op2, Reducer};
use tilt_lexer::Name;
use tilt_text::{put, put_number};

/// The listing of the code: a line for each input, and for each loop the lines of its maps and of its body.
pub fn list(alloc: Global, code: &Code) -> Result<Vec<u8>, OutOfMemory>
    ensures text { IfOk result (λ text. text.items ≡ listing code.now) }
{
    let mut text = Vec::new(alloc);
    put(&mut text, b"tilt 1\n")?;
    put_inputs(&mut text, code.inputs())?;
    put_loops(&mut text, code.loops())?;
    Ok(text)
}

// Appends the lines of the inputs.
fn put_inputs(text: &mut Vec<u8>, names: &[Name]) -> Result<(), OutOfMemory>
    ensures { OnOk result (text.new.items ≡ text.old.items ++ ended (map line_text (map Input names.now))) }
{
    for name in names {
        put_input(text, name)?;
    }
    Ok(())
}

// Appends `input x`.
fn put_input(text: &mut Vec<u8>, name: &Name) -> Result<(), OutOfMemory>
    ensures { OnOk result (text.new.items ≡ text.old.items ++ ended (line_text (Input name.now) ∷ [])) }
{
    put(text, b"input ")?;
    put(text, name.bytes())?;
    put(text, b"\n")
}

// Appends the lines of loops.
fn put_loops(text: &mut Vec<u8>, loops: &[Loop]) -> Result<(), OutOfMemory>
    ensures { OnOk result (text.new.items ≡ text.old.items ++ ended (map line_text (flat_map loop_lines loops.now))) }
{
    for each in loops {
        put_loop(text, each)?;
    }
    Ok(())
}

// Appends the lines of a loop.
fn put_loop(text: &mut Vec<u8>, each: &Loop) -> Result<(), OutOfMemory>
    ensures { OnOk result (text.new.items ≡ text.old.items ++ ended (map line_text (loop_lines each.now))) }
{
    put_head(text, each.lo, each.hi, &each.grid)?;
    put_maps(text, &each.maps)?;
    put_block(text, &each.body)?;
    put(text, b"end\n")?;
    Ok(())
}

// Appends the first line of a loop.
fn put_head(text: &mut Vec<u8>, lo: i64, hi: i64, grid: &Grid) -> Result<(), OutOfMemory>
    ensures { OnOk result (text.new.items ≡ text.old.items ++ ended (line_text (Head lo hi grid.now) ∷ [])) }
{
    put(text, b"loop ")?;
    put_numbers(text, lo, hi)?;
    put(text, b" ")?;
    put_numbers(text, grid.period, grid.offset)?;
    put(text, b"\n")?;
    Ok(())
}

// Appends two numbers, with a blank between them.
fn put_numbers(text: &mut Vec<u8>, first: i64, second: i64) -> Result<(), OutOfMemory>
    ensures { OnOk result (text.new.items
        ≡ text.old.items ++ spaced (signed_decimal first ∷ signed_decimal second ∷ [])) }
{
    put_number(text, first)?;
    put(text, b" ")?;
    put_number(text, second)
}

// Appends the lines of maps.
fn put_maps(text: &mut Vec<u8>, maps: &[Vec<Instr>]) -> Result<(), OutOfMemory>
    ensures { OnOk result (text.new.items
        ≡ text.old.items ++ ended (map line_text (flat_map map_lines (map (λ m. m.items) maps.now)))) }
{
    for block in maps {
        put_map(text, block)?;
    }
    Ok(())
}

// Appends the lines of a map.
#[tactic(auto, using(crate::proofs::Lines::map_text))]
fn put_map(text: &mut Vec<u8>, block: &[Instr]) -> Result<(), OutOfMemory>
    ensures { OnOk result (text.new.items ≡ text.old.items ++ ended (map line_text (map_lines block.now))) }
{
    put(text, b"map\n")?;
    put_block(text, block)?;
    put(text, b"end\n")
}

// Appends the lines of a block.
fn put_block(text: &mut Vec<u8>, block: &[Instr]) -> Result<(), OutOfMemory>
    ensures { OnOk result (text.new.items ≡ text.old.items ++ ended (map line_text (block_lines 0 block.now))) }
{
    for (register, instr) in block.iter().enumerate() {
        put_step(text, register, *instr)?;
    }
    Ok(())
}

// Appends the line of an instruction, which fills that register.
fn put_step(text: &mut Vec<u8>, register: usize, instr: Instr) -> Result<(), OutOfMemory>
    ensures { OnOk result (text.new.items ≡ text.old.items ++ ended (line_text (Step register instr) ∷ [])) }
{
    put(text, b"r")?;
    put_number(text, register)?;
    put(text, b" = ")?;
    put_instr(text, instr)?;
    put(text, b"\n")
}

// Appends an instruction, word by word.
fn put_instr(text: &mut Vec<u8>, instr: Instr) -> Result<(), OutOfMemory>
    ensures { OnOk result (text.new.items ≡ text.old.items ++ spaced (instr_words instr)) }
{
    match instr {
        Instr::Const(number) => {
            put(text, b"const ")?;
            put_number(text, number)
        }
        Instr::Null => put(text, b"null"),
        Instr::Argument => put(text, b"cell"),
        Instr::Port { buffer, offset } => put_port(text, buffer, offset),
        Instr::Win {
            reducer,
            buffer,
            from,
            to,
            map,
        } => {
            put_window(text, reducer, buffer, from, to)?;
            match map {
                Some(map) => put_named(text, b" m", map),
                None => Ok(()),
            }
        }
        Instr::One(op, a) => {
            put(text, one_word(op))?;
            put_named(text, b" r", a)
        }
        Instr::Two(op, a, b) => {
            put(text, two_word(op))?;
            put_named(text, b" r", a)?;
            put_named(text, b" r", b)
        }
        Instr::If(c, a, b) => {
            put(text, b"if")?;
            put_named(text, b" r", c)?;
            put_named(text, b" r", a)?;
            put_named(text, b" r", b)
        }
    }
}

// Appends a port.
fn put_port(text: &mut Vec<u8>, buffer: u32, offset: i64) -> Result<(), OutOfMemory>
    ensures { OnOk result (text.new.items
        ≡ text.old.items ++ spaced (codes "port" ∷ buffer_word buffer ∷ signed_decimal offset ∷ [])) }
{
    put(text, b"port")?;
    put_named(text, b" b", buffer)?;
    put(text, b" ")?;
    put_number(text, offset)
}

// Appends a window without its map.
fn put_window(
    text: &mut Vec<u8>,
    reducer: Reducer,
    buffer: u32,
    from: i64,
    to: i64,
) -> Result<(), OutOfMemory>
    ensures { OnOk result (text.new.items ≡ text.old.items
        ++ spaced (codes "win" ∷ reducer_word reducer ∷ buffer_word buffer ∷ signed_decimal from ∷ signed_decimal to ∷ [])) }
{
    put(text, b"win ")?;
    put(text, reducer.word())?;
    put_named(text, b" b", buffer)?;
    put(text, b" ")?;
    put_numbers(text, from, to)
}

// The word of an operator on one register.
pub(crate) fn one_word(op: Op1) -> &'static [u8]
    ensures { result.now ≡ one_word op }
{
    match op {
        Op1::Neg => b"neg",
        Op1::Not => b"not",
        Op1::IsNull => b"isnull",
    }
}

// The word of an operator on two registers.
pub(crate) fn two_word(op: Op2) -> &'static [u8]
    ensures { result.now ≡ two_word op }
{
    match op {
        Op2::Add => b"add",
        Op2::Sub => b"sub",
        Op2::Mul => b"mul",
        Op2::Div => b"div",
        Op2::Rem => b"rem",
        Op2::Eq => b"eq",
        Op2::Ne => b"ne",
        Op2::Lt => b"lt",
        Op2::Le => b"le",
        Op2::Gt => b"gt",
        Op2::Ge => b"ge",
        Op2::And => b"and",
        Op2::Or => b"or",
        Op2::When => b"when",
        Op2::IfNull => b"ifnull",
    }
}

// Appends a blank, a letter and a number.
fn put_named(text: &mut Vec<u8>, letter: &[u8], number: u32) -> Result<(), OutOfMemory>
    ensures { OnOk result (text.new.items ≡ text.old.items ++ letter.now ++ decimal number) }
{
    put(text, letter)?;
    put_number(text, number)
}
