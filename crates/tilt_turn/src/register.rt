// Registers: what an instruction gives by those before it.
ghost use Rattle.std.specs.Prelude.{◌≡◌, ◌<◌, None, get_or, length, IfOk};
ghost use Rattle.tilt_code.specs.Body.{instr_cell, last_or};
ghost use Rattle.tilt_turn.specs.Held.{ConstantsStand, IsStanding};
ghost use Rattle.tilt_turn.specs.Ready.{NamesBelow};

use std::alloc::{AllocError as OutOfMemory, Global};
use tilt_base::{Cell, apply1, apply2, choose};
use tilt_code::Instr;

// One register for each instruction of a block, with the constants in place.
pub(crate) fn constants(alloc: Global, block: &[Instr]) -> Result<Vec<Cell>, OutOfMemory>
    ensures { IfOk result (λ registers. ConstantsStand block.now registers.items) }
{
    let mut registers = Vec::new(alloc);
    for instr in block {
        registers.push(constant(instr))?;
    }
    Ok(registers)
}

// What is in the register of an instruction from the start: the number of a constant, and else null.
fn constant(instr: &Instr) -> Cell
    ensures { IsStanding instr.now result }
{
    match instr {
        Instr::Const(number) => Some(*number),
        _ => None,
    }
}

// What an instruction gives by the registers before it; if it is a leaf, it gives the cell of the leaf.
#[inline(always)]
pub(crate) fn register(instr: &Instr, registers: &[Cell], leaf: Cell) -> Cell
    requires { NamesBelow (length registers.now) instr.now }
    ensures { result ≡ instr_cell (λ _. leaf) registers.now instr.now }
{
    match instr {
        Instr::Const(number) => Some(*number),
        Instr::Null => None,
        Instr::One(op, a) => apply1(*op, read(registers, *a)),
        Instr::Two(op, a, b) => apply2(*op, read(registers, *a), read(registers, *b)),
        Instr::If(c, a, b) => choose(
            read(registers, *c),
            read(registers, *a),
            read(registers, *b),
        ),
        Instr::Argument | Instr::Port { .. } | Instr::Win { .. } => leaf,
    }
}

// The register of that number.
#[inline]
fn read(registers: &[Cell], number: u32) -> Cell
    requires { number < length registers.now }
    ensures { result ≡ get_or registers.now number None }
{
    registers[number as usize]
}

// The last register, which is the result of a block.
#[inline]
pub(crate) fn last(registers: &[Cell]) -> Cell
    ensures { result ≡ last_or None registers.now }
{
    *registers.last()?
}
