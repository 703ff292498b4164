// The instructions of a body that are computed by registers before them.
ghost use Rattle.std.specs.Prelude.{◌≡◌, [], ◌∷◌, ◌++◌, length, IfOk, OnOk};
ghost use Rattle.std.specs.List.{AllByRecursion};
ghost use Rattle.tilt_turn.specs.Picked.{IsWithin, computed_by, computes, picked};

use crate::register::register;
use std::alloc::{AllocError as OutOfMemory, Global};
use tilt_base::Cell;
use tilt_code::Instr;

// An instruction of a body, with the number of its register.
#[derive(Drop)]
pub(crate) struct Listed {
    pub(crate) place: usize,
    pub(crate) instr: Instr,
}

// Those of a body, in its order.
pub(crate) fn computed_of(alloc: Global, body: &[Instr]) -> Result<Vec<Listed>, OutOfMemory>
    ensures { IfOk result (λ computed. computed.items ≡ picked computes 0 body.now) }
{
    let mut computed = Vec::new(alloc);
    for (place, instr) in body.iter().enumerate() {
        add_computed(&mut computed, place, *instr)?;
    }
    Ok(computed)
}

// Adds the instruction in a place of a body, if it is computed.
fn add_computed(computed: &mut Vec<Listed>, place: usize, instr: Instr) -> Result<(), OutOfMemory>
    ensures { OnOk result (computed.new.items ≡ computed.old.items ++ picked computes place (instr ∷ [])) }
{
    match instr {
        Instr::One(..) | Instr::Two(..) | Instr::If(..) => computed.push(Listed { place, instr })?,
        _ => {}
    }
    Ok(())
}

// Computes the registers of these, one after the other. It isn't inlined, so that what its loop needs stays in registers of the
// processor over the calls of operators.
#[inline(never)]
pub(crate) fn compute(computed: &[Listed], registers: &mut [Cell])
    requires { AllByRecursion (IsWithin (length registers.old)) computed.now }
    ensures { registers.new ≡ computed_by computed.now registers.old }
{
    for listed in computed {
        let cell = register(&listed.instr, registers, None);
        registers[listed.place] = cell;
    }
}
