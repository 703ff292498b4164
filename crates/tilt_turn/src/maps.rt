// What the maps of a loop give on a cell.
ghost use Rattle.std.specs.Prelude.{◌≡◌, ◌<◌, [], get_or, length, IfOk, OnOk};
ghost use Rattle.tilt_code.specs.Body.{map_leaf, mapped, with_registers};
ghost use Rattle.tilt_turn.specs.Ready.{MayMap, NameEarlier};

use crate::register::{last, register};
use std::alloc::AllocError as OutOfMemory;
use tilt_base::Cell;
use tilt_code::{Instr, Loop};

// What a map gives on a cell, or the cell itself if no map is named. The registers are overwritten.
#[inline]
pub(crate) fn mapped(
    each: &Loop,
    map: Option<u32>,
    cell: Cell,
    registers: &mut Vec<Cell>,
) -> Result<Cell, OutOfMemory>
    requires { MayMap each.now.maps map }
    ensures { IfOk result (λ given. given ≡ mapped each.now.maps map cell) }
{
    match map {
        None => Ok(cell),
        Some(number) => {
            run_block(block_of(each, number), cell, registers)?;
            Ok(last(registers))
        }
    }
}

// The block of the map of that number.
fn block_of(each: &Loop, number: u32) -> &[Instr]
    requires { number < length each.now.maps }
    ensures { result.now ≡ get_or each.now.maps number [] }
{
    &each.maps[number as usize]
}

// Runs the block of a map on a cell, and overwrites the registers that the block fills. It isn't inlined, so that `mapped`, which mostly
// names no map, is inlined.
#[inline(never)]
fn run_block(block: &[Instr], cell: Cell, registers: &mut Vec<Cell>) -> Result<(), OutOfMemory>
    requires { NameEarlier 0 block.now }
    ensures { OnOk result (registers.new.items ≡ with_registers (map_leaf cell) [] block.now) }
{
    registers.clear();
    for instr in block {
        registers.push(register(instr, registers, argument(instr, cell)))?;
    }
    Ok(())
}

// What the leaf of a map gives: its argument is the cell that the map is run on.
#[inline]
fn argument(instr: &Instr, cell: Cell) -> Cell
    ensures { result ≡ map_leaf cell instr.now }
{
    match instr {
        Instr::Argument => cell,
        _ => None,
    }
}
