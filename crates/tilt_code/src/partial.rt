// A code of which the lines so far were read.
ghost use Rattle.std.specs.Prelude.{◌≡◌, ◌++◌, [], ◌∷◌, OnOk};
ghost use Rattle.tilt_code.specs.Grammar.{stands_in_body, stands_in_map};
ghost use Rattle.tilt_code.specs.Partial.{closed, is_new, nothing, parts_of, stands_in, with_end};
ghost use Rattle.tilt_code.specs.Partial.{with_head, with_input, with_line, with_map, with_step};
ghost use Rattle.tilt_code.specs.Partial.{with_title, Takes};

use crate::inputs::InputNames;
use crate::instr::Instr;
use crate::line::Line;
use crate::loops::Loop;
use crate::stage::Stage;
use std::alloc::{AllocError as OutOfMemory, Global};
use std::mem;
use tilt_base::Grid;
use tilt_lexer::Name;

// The inputs, the whole loops, and of the open loop its first line, its whole maps and its open block.
#[derive(Drop)]
pub(crate) struct Partial {
    pub(crate) stage: Stage,
    pub(crate) inputs: InputNames,
    pub(crate) loops: Vec<Loop>,
    pub(crate) lo: i64,
    pub(crate) hi: i64,
    pub(crate) grid: Grid,
    pub(crate) maps: Vec<Vec<Instr>>,
    pub(crate) block: Vec<Instr>,
}

impl Partial {
    // What there is before the first line.
    pub(crate) fn new(alloc: Global) -> Partial
        ensures { parts_of result ≡ nothing }
    {
        Partial {
            stage: Stage::Before,
            inputs: InputNames::new(alloc),
            loops: Vec::new(alloc),
            lo: 0,
            hi: 0,
            grid: Grid {
                period: 1,
                offset: 0,
            },
            maps: Vec::new(alloc),
            block: Vec::new(alloc),
        }
    }

    // Continues with a line, and says whether it may be there.
    pub(crate) fn take(&mut self, alloc: Global, line: Line) -> Result<bool, OutOfMemory>
        ensures { Takes (with_line line (parts_of self.old)) result (parts_of self.new) }
    {
        match line {
            Line::Title => self.take_title(),
            Line::Input(name) => self.take_input(alloc, name),
            Line::Head { lo, hi, grid } => self.take_head(lo, hi, grid),
            Line::Map => self.take_map(),
            Line::Step { register, instr } => self.take_step(register, instr),
            Line::End => self.take_end(alloc),
        }
    }

    // Continues with the first line of a listing.
    fn take_title(&mut self) -> Result<bool, OutOfMemory>
        ensures { Takes (with_title self.old.stage (parts_of self.old)) result (parts_of self.new) }
    {
        match self.stage {
            Stage::Before => {
                self.stage = Stage::Outside;
                Ok(true)
            }
            Stage::Outside | Stage::InMap | Stage::InBody => Ok(false),
        }
    }

    // Continues with the line of an input.
    fn take_input(&mut self, alloc: Global, name: Name) -> Result<bool, OutOfMemory>
        ensures { Takes (with_input self.old.stage name (parts_of self.old)) result (parts_of self.new) }
    {
        match self.stage {
            Stage::Outside => {
                if !is_new(&self.loops, &self.inputs, &name) {
                    return Ok(false);
                }
                self.inputs.push(alloc, name)?;
                Ok(true)
            }
            Stage::Before | Stage::InMap | Stage::InBody => Ok(false),
        }
    }

    // Continues with the first line of a loop.
    fn take_head(&mut self, lo: i64, hi: i64, grid: Grid) -> Result<bool, OutOfMemory>
        ensures { Takes (with_head self.old.stage lo hi grid (parts_of self.old)) result (parts_of self.new) }
    {
        match self.stage {
            Stage::Outside => {
                self.stage = Stage::InBody;
                self.lo = lo;
                self.hi = hi;
                self.grid = grid;
                Ok(true)
            }
            Stage::Before | Stage::InMap | Stage::InBody => Ok(false),
        }
    }

    // Continues with the first line of a map.
    fn take_map(&mut self) -> Result<bool, OutOfMemory>
        ensures { Takes (with_map self.old.stage (parts_of self.old)) result (parts_of self.new) }
    {
        match self.stage {
            Stage::InBody => {
                if !self.block.is_empty() {
                    return Ok(false);
                }
                self.stage = Stage::InMap;
                Ok(true)
            }
            Stage::Before | Stage::Outside | Stage::InMap => Ok(false),
        }
    }

    // Continues with the line of an instruction.
    fn take_step(&mut self, register: u32, instr: Instr) -> Result<bool, OutOfMemory>
        ensures { Takes (with_step self.old.stage register instr (parts_of self.old)) result (parts_of self.new) }
    {
        if !stands_in(self.stage, instr) || register as usize != self.block.len() {
            return Ok(false);
        }
        push_instr(&mut self.block, instr)?;
        Ok(true)
    }

    // Continues with the last line of a map or of a loop.
    fn take_end(&mut self, alloc: Global) -> Result<bool, OutOfMemory>
        ensures { Takes (with_end self.old.stage (parts_of self.old)) result (parts_of self.new) }
    {
        match self.stage {
            Stage::InMap => {
                if self.block.is_empty() {
                    return Ok(false);
                }
                let block = self.take_block(alloc);
                self.stage = Stage::InBody;
                self.maps.push(block)?;
                Ok(true)
            }
            Stage::InBody => {
                if self.block.is_empty() {
                    return Ok(false);
                }
                self.close_loop(alloc)
            }
            Stage::Before | Stage::Outside => Ok(false),
        }
    }

    // Ends the open loop.
    fn close_loop(&mut self, alloc: Global) -> Result<bool, OutOfMemory>
        ensures { Takes (closed (parts_of self.old)) result (parts_of self.new) }
    {
        let maps = mem::replace(&mut self.maps, Vec::new(alloc));
        let body = self.take_block(alloc);
        self.stage = Stage::Outside;
        self.loops.push(Loop {
            lo: self.lo,
            hi: self.hi,
            grid: self.grid,
            maps,
            body,
        })?;
        Ok(true)
    }

    // The open block, with no room for more, after which none is open.
    fn take_block(&mut self, alloc: Global) -> Vec<Instr>
        ensures block { result.items ≡ (parts_of self.old).block }
        ensures rest { parts_of self.new ≡ record (parts_of self.old) { block = [] } }
    {
        let mut block = mem::replace(&mut self.block, Vec::new(alloc));
        block.shrink_to_fit();
        block
    }
}

// Adds an instruction to a block. Room for one comes first, since listings of many blocks have short ones.
fn push_instr(block: &mut Vec<Instr>, instr: Instr) -> Result<(), OutOfMemory>
    ensures { OnOk result (block.new.items ≡ block.old.items ++ instr ∷ []) }
{
    if block.is_empty() {
        block.reserve_exact(1)?;
    }
    block.push(instr)?;
    Ok(())
}

// Whether an instruction is allowed in the open block.
fn stands_in(stage: Stage, instr: Instr) -> bool
    ensures { result ≡ stands_in stage instr }
{
    match stage {
        Stage::InMap => stands_in_map(instr),
        Stage::InBody => stands_in_body(instr),
        Stage::Before | Stage::Outside => false,
    }
}

// Whether an instruction is allowed in a map.
fn stands_in_map(instr: Instr) -> bool
    ensures { result ≡ stands_in_map instr }
{
    match instr {
        Instr::Port { .. } | Instr::Win { .. } => false,
        Instr::Const(_)
        | Instr::Null
        | Instr::Argument
        | Instr::One(_, _)
        | Instr::Two(_, _, _)
        | Instr::If(_, _, _) => true,
    }
}

// Whether an instruction is allowed in a body.
fn stands_in_body(instr: Instr) -> bool
    ensures { result ≡ stands_in_body instr }
{
    match instr {
        Instr::Argument => false,
        Instr::Const(_)
        | Instr::Null
        | Instr::Port { .. }
        | Instr::Win { .. }
        | Instr::One(_, _)
        | Instr::Two(_, _, _)
        | Instr::If(_, _, _) => true,
    }
}

// Whether an input may follow with that name.
fn is_new(loops: &[Loop], inputs: &InputNames, name: &Name) -> bool
    ensures { result ≡ is_new loops.now inputs.now name.now }
{
    loops.is_empty() && !inputs.has(name.bytes())
}
