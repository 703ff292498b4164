// The code of a query.
ghost use Rattle.std.specs.Prelude.{◌≡◌, Ok, IfOk};
ghost use Rattle.tilt_bounds.specs.Margins.{margins_of};
ghost use Rattle.tilt_lower.specs.Law.{IsPlan, LiesWithin, MeansTheQuery};
ghost use Rattle.tilt_lower.specs.Lowering.{code_of};
ghost use Rattle.tilt_core.specs.Core.{domain_of};

use crate::buffers::Buffers;
use crate::definition_loop::loop_on;
use std::alloc::{AllocError as OutOfMemory, Global};
use tilt_bounds::{Margins, stretch};
use tilt_code::Code;
use tilt_core::Core;
use tilt_fuse::LoopList;
use tilt_lexer::Name;

/// The code of a query for the output on `(lo, hi]`, in ticks, which lies within the query's output domain. The plan is the
/// query's, with fusion or without, and the margins are the query's.
pub fn lower(
    alloc: Global,
    plan: &LoopList,
    core: &Core,
    margins: &Margins,
    lo: i64,
    hi: i64,
) -> Result<Code, OutOfMemory>
    requires plan { IsPlan core.now plan.now.loops.items }
    requires margins { margins_of core.now ≡ Ok margins.now }
    requires output { LiesWithin (domain_of core.now.defs) lo hi }
    ensures code { IfOk result (λ code. code ≡ code_of plan.now.loops.items core.now margins.now lo hi) }
    ensures means { IfOk result (λ code. MeansTheQuery core.now margins.now plan.now.loops.items lo hi code) }
{
    // What margins keep is known from here on.
    let _ = margins.needs();
    let inputs = core.inputs();
    let names = copies(alloc, inputs)?;
    let buffers = Buffers {
        inputs: inputs.len() as u32,
        loops: &plan.loops,
    };
    let mut loops = Vec::new(alloc);
    for planned in &plan.loops {
        let span = stretch(core, margins, planned.def, lo, hi);
        let def = &core.defs()[planned.def as usize];
        loops.push(loop_on(alloc, span, &buffers, def, &planned.body)?)?;
    }
    Ok(Code::new(names, loops))
}

// Equal names.
fn copies(alloc: Global, names: &[Name]) -> Result<Vec<Name>, OutOfMemory>
    ensures { IfOk result (λ copies. copies.items ≡ names.now) }
{
    let mut copies = Vec::new(alloc);
    for name in names {
        copies.push(name.copy()?)?;
    }
    Ok(copies)
}
