// The intervals of all sources of a query.
ghost use Rattle.std.specs.Prelude.{◌≡◌, ◌≤◌, ◌++◌, [], ◌∷◌, length, IfOk, OnOk};
ghost use Rattle.tilt_core.specs.CoreTree.{nodes};
ghost use Rattle.tilt_core.specs.Core.{AreDefinitions};
ghost use Rattle.tilt_magnitudes.specs.Marks.{marks_in};
ghost use Rattle.tilt_magnitudes.specs.Magnitude.{Gives, magnitudes, next_magnitudes};

use crate::expression::magnitude;
use crate::fault::MagnitudeFault;
use crate::interval::Interval;
use crate::met::Rate;
use std::alloc::{AllocError as OutOfMemory, Global};
use tilt_core::{Core, Def};
use tilt_units::Place;

/// The intervals of the sources of a query: the inputs in order, then the definitions. Each input needs the interval of its values, and
/// the rate at which its snapshots start. If an expression can leave 64 bits, the error is the first such expression.
pub fn magnitudes(
    alloc: Global,
    inputs: &[Interval],
    rates: &[Rate],
    core: &Core,
) -> Result<Vec<Interval>, MagnitudeFault>
    ensures { Gives (λ all. all.items) result (magnitudes inputs.now rates.now core.now.defs) }
{
    magnitudes_of(alloc, inputs, rates, core, core.inputs().len())
}

// The same of definitions that follow a number of sources.
fn magnitudes_of(
    alloc: Global,
    inputs: &[Interval],
    rates: &[Rate],
    core: &Core,
    before: usize,
) -> Result<Vec<Interval>, MagnitudeFault>
    requires few { length core.now.defs ≤ 256 }
    requires definitions { AreDefinitions before core.now.defs }
    ensures { Gives (λ all. all.items) result (magnitudes inputs.now rates.now core.now.defs) }
{
    let defs = core.defs();
    let mut all = copied(alloc, inputs)?;
    for place in 0..defs.len() {
        push_magnitude(alloc, rates, core, &mut all, place as u32, &defs[place])?;
    }
    Ok(all)
}

// The intervals in a list of its own.
fn copied(alloc: Global, inputs: &[Interval]) -> Result<Vec<Interval>, OutOfMemory>
    ensures { IfOk result (λ all. all.items ≡ inputs.now) }
{
    let mut all = Vec::new(alloc);
    for interval in inputs {
        all.push(*interval)?;
    }
    Ok(all)
}

// Adds the interval of a definition, which has a number.
fn push_magnitude(
    alloc: Global,
    rates: &[Rate],
    core: &Core,
    all: &mut Vec<Interval>,
    number: u32,
    def: &Def,
) -> Result<(), MagnitudeFault>
    requires { nodes def.now.body ≤ 256 }
    ensures { Gives (λ _. all.new.items) result (next_magnitudes (marks_in rates.now core.now.defs) number all.old.items def.now) }
{
    let place = Place {
        definition: number,
        node: 0,
    };
    let interval = magnitude(alloc, rates, core, all, place, &def.body)?;
    Ok(push_one(all, interval)?)
}

// Adds an interval.
fn push_one(all: &mut Vec<Interval>, interval: Interval) -> Result<(), OutOfMemory>
    ensures { OnOk result (all.new.items ≡ all.old.items ++ interval ∷ []) }
{
    all.push(interval)?;
    Ok(())
}
