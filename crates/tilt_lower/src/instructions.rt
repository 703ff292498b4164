// The instructions of an expression.
ghost use Rattle.std.specs.Prelude.{◌≡◌, ◌+◌, ◌^◌, ◌<◌, ◌≤◌, ◌++◌, [], ◌∷◌, length, IfOk, OnOk};
ghost use Rattle.std.specs.List.{AllByRecursion};
ghost use Rattle.tilt_fuse.specs.FusedTree.{fused_tree_of};
ghost use Rattle.tilt_lower.specs.Constants.{BlockFits, ConstantFits};
ghost use Rattle.tilt_lower.specs.Lowering.{block_of, buffer_of, maps, registers, result_at};

use crate::buffers::{Buffers, buffer_of};
use std::alloc::{AllocError as OutOfMemory, Global};
use tilt_code::Instr;
use tilt_fuse::Fused;

/// The block of an expression over the buffers of its sources.
pub fn block_of(alloc: Global, tree: &Fused, buffers: &Buffers) -> Result<Vec<Instr>, OutOfMemory>
    requires few { registers (fused_tree_of tree.now) ≤ 2 ^ 16 }
    requires few_maps { maps (fused_tree_of tree.now) ≤ 2 ^ 16 }
    requires buffers { buffers.now.inputs + length buffers.now.loops.now ≤ 256 }
    ensures block { IfOk result (λ block. block.items
        ≡ block_of (buffer_of buffers.now.inputs buffers.now.loops.now) 0 0 (fused_tree_of tree.now)) }
    ensures fit { IfOk result (λ block. BlockFits block.items) }
{
    let mut block = Vec::new(alloc);
    let mut next_map = 0;
    emit(&mut block, &mut next_map, tree, buffers)?;
    Ok(block)
}

// Adds the instructions of an expression, its operands first, and gives the register of its result. Maps are numbered from
// the next number on.
fn emit(
    block: &mut Vec<Instr>,
    next_map: &mut u32,
    tree: &Fused,
    buffers: &Buffers,
) -> Result<u32, OutOfMemory>
    requires few { length block.old.items + registers (fused_tree_of tree.now) ≤ 2 ^ 16 }
    requires few_maps { next_map.old + maps (fused_tree_of tree.now) ≤ 2 ^ 16 }
    requires buffers { buffers.now.inputs + length buffers.now.loops.now ≤ 256 }
    ensures block { OnOk result (block.new.items ≡ block.old.items
        ++ block_of (buffer_of buffers.now.inputs buffers.now.loops.now) (length block.old.items) next_map.old (fused_tree_of tree.now)) }
    ensures many { OnOk result (length block.new.items ≡ length block.old.items + registers (fused_tree_of tree.now)) }
    ensures numbers { OnOk result (next_map.new ≡ next_map.old + maps (fused_tree_of tree.now)) }
    ensures register { IfOk result (λ register. register ≡ result_at (length block.old.items) (fused_tree_of tree.now)) }
    ensures fit { OnOk result (AllByRecursion ConstantFits block.old.items → AllByRecursion ConstantFits block.new.items) }
{
    match tree {
        Fused::Const(number) => push_constant(block, *number),
        Fused::Port { source, offset } => push_port(block, buffers, *source, *offset),
        Fused::Win {
            reducer,
            source,
            from,
            to,
            map,
        } => {
            let map = match map {
                None => None,
                Some(_) => Some(take_number(next_map)),
            };
            let window = Instr::Win {
                reducer: *reducer,
                buffer: buffer_of(buffers, *source),
                from: *from,
                to: *to,
                map,
            };
            push(block, window)
        }
        Fused::Argument => push(block, Instr::Argument),
        Fused::One(op, a) => {
            let a = emit(block, next_map, a, buffers)?;
            push(block, Instr::One(*op, a))
        }
        Fused::Two(op, a, b) => {
            let left = emit(block, next_map, a, buffers)?;
            let right = emit(block, next_map, b, buffers)?;
            push(block, Instr::Two(*op, left, right))
        }
        Fused::If(c, a, b) => {
            let c = emit(block, next_map, c, buffers)?;
            let a = emit(block, next_map, a, buffers)?;
            let b = emit(block, next_map, b, buffers)?;
            push(block, Instr::If(c, a, b))
        }
    }
}

// Adds the reading of a source at an offset.
fn push_port(
    block: &mut Vec<Instr>,
    buffers: &Buffers,
    source: u32,
    offset: i64,
) -> Result<u32, OutOfMemory>
    requires few { length block.old.items < 2 ^ 32 }
    requires buffers { buffers.now.inputs + length buffers.now.loops.now ≤ 256 }
    ensures block { OnOk result (block.new.items
        ≡ block.old.items ++ Instr.Port (buffer_of buffers.now.inputs buffers.now.loops.now source) offset ∷ []) }
    ensures register { IfOk result (λ register. register ≡ length block.old.items) }
{
    let buffer = buffer_of(buffers, source);
    push(block, Instr::Port { buffer, offset })
}

// The next number, which is taken.
fn take_number(next: &mut u32) -> u32
    requires { next.old < 2 ^ 16 }
    ensures taken { result ≡ next.old }
    ensures next { next.new ≡ next.old + 1 }
{
    let number = *next;
    *next += 1;
    number
}

// Adds a constant.
fn push_constant(block: &mut Vec<Instr>, number: i64) -> Result<u32, OutOfMemory>
    requires { length block.old.items < 2 ^ 32 }
    ensures block { OnOk result (block.new.items ≡ block.old.items ++ Instr.Const number ∷ []) }
    ensures register { IfOk result (λ register. register ≡ length block.old.items) }
    ensures fits { ConstantFits (Instr.Const number) }
{
    push(block, Instr::Const(number))
}

// Adds an instruction, and gives its register.
fn push(block: &mut Vec<Instr>, instr: Instr) -> Result<u32, OutOfMemory>
    requires { length block.old.items < 2 ^ 32 }
    ensures block { OnOk result (block.new.items ≡ block.old.items ++ instr ∷ []) }
    ensures register { IfOk result (λ register. register ≡ length block.old.items) }
{
    let register = block.len() as u32;
    block.push(instr)?;
    Ok(register)
}
