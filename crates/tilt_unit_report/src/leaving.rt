// Whether a number of a query can leave 64 bits.
ghost use Rattle.std.specs.Prelude.{◌≡◌, None, IfErr, IfOk, is_err};
ghost use Rattle.tilt_unit_report.specs.Bound.{IsBoundFault, unknown_bound};
ghost use Rattle.tilt_unit_report.specs.IllScaled.{magnitudes_of};

use crate::bound::{InputBound, rates_of, unknown_bound, values_of};
use crate::fault::BoundFault;
use crate::report::find_magnitudes;
use std::alloc::Global;
use tilt_core::Core;

/// Whether a number of a query over whole numbers can leave 64 bits, if its inputs are within these bounds. An input without a bound can
/// have any numbers and any marks. `UnknownInput` has the first bound of a name that no input has. `OutOfMemory` comes only if there was no
/// memory.
pub fn can_leave(alloc: Global, core: &Core, bounds: &[InputBound]) -> Result<bool, BoundFault>
    ensures can { IfOk result (λ can. can ≡ is_err (magnitudes_of core.now bounds.now)) }
    ensures known { IfOk result (λ _. unknown_bound core.now.inputs 0 bounds.now ≡ None) }
    ensures fault { IfErr result (λ fault. IsBoundFault (unknown_bound core.now.inputs 0 bounds.now) fault) }
{
    if let Some(bound) = unknown_bound(core.inputs(), bounds) {
        return Err(BoundFault::UnknownInput { bound });
    }
    let values = values_of(alloc, bounds, core.inputs())?;
    let rates = rates_of(alloc, bounds, core.inputs())?;
    Ok(find_magnitudes(alloc, core, &values, &rates)?.is_err())
}
