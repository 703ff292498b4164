// The margins of a query.
ghost use Rattle.std.specs.Prelude.{◌≡◌, ◌++◌, [], ◌∷◌, Some, map, IfOk, OnOk};
ghost use Rattle.tilt_bounds.specs.Laws.{AllChangeOnlyAtMarks, IsCausal, IsLocal};
ghost use Rattle.tilt_bounds.specs.Margins.{AreWithin, Gives, IsWithin, evenly, is_too_far, margins_of, need_of};

use crate::asking::needs_of;
use crate::fault::ReachFault;
use crate::margins::Margins;
use crate::need::Need;
use crate::wide_need::WideNeed;
use crate::widest::widest_of;
use std::alloc::{AllocError as OutOfMemory, Global};
use tilt_base::REACH;
use tilt_core::Core;

/// The margins of the query: the need of each source, and the look-back and the look-ahead. If one of the two is above `REACH`, the error
/// is `TooFar`, with both.
///
/// The margins carry three laws. Each source changes only at marks (`changes`). If rows agree on what each input is asked for, the meaning
/// of each source agrees on what it is asked for (`local`). Rows added from a cut on change nothing up to the cut less the look-ahead
/// (`causal`).
pub fn reach(alloc: Global, core: &Core) -> Result<Margins, ReachFault>
    ensures margins { Gives result (margins_of core.now) }
    ensures changes { IfOk result (λ _. AllChangeOnlyAtMarks core.now) }
    ensures local { IfOk result (λ margins. IsLocal core.now margins) }
    ensures causal { IfOk result (λ margins. IsCausal core.now margins) }
{
    let inputs = core.inputs().len();
    let defs = core.defs();
    let needs = needs_of(alloc, inputs, defs)?;
    let widest = widest_of(&needs, inputs, defs);
    if is_too_far(widest) {
        return Err(too_far(widest));
    }
    let needs = narrow(alloc, &needs)?;
    Ok(margins_within(widest, needs))
}

// Whether the look-back or the look-ahead is above the limit.
fn is_too_far(widest: WideNeed) -> bool
    ensures { result ≡ is_too_far widest }
{
    widest.back > i128::from(REACH) || widest.ahead > i128::from(REACH)
}

// The fault with both numbers.
fn too_far(widest: WideNeed) -> ReachFault
    ensures { result ≡ ReachFault.TooFar widest.back widest.ahead }
{
    ReachFault::TooFar {
        back: widest.back,
        ahead: widest.ahead,
    }
}

// The margins of a query that looks this far, whose sources have these needs.
fn margins_within(widest: WideNeed, needs: Vec<Need>) -> Margins
    requires near { IsWithin (evenly REACH) (Some widest) }
    requires needs { AreWithin widest (map need_of needs.items) }
    ensures { result ≡ record { back = widest.back; ahead = widest.ahead; needs = map need_of needs.items } }
{
    Margins::new(widest.back as i64, widest.ahead as i64, needs)
}

// Needs that are within the limit, in 64 bits.
fn narrow(alloc: Global, wide: &[Option<WideNeed>]) -> Result<Vec<Need>, OutOfMemory>
    requires { AreWithin (evenly REACH) wide.now }
    ensures { IfOk result (λ needs. map need_of needs.items ≡ wide.now) }
{
    let mut needs = Vec::new(alloc);
    for need in wide {
        push_need(&mut needs, *need)?;
    }
    Ok(needs)
}

// Adds a need.
fn push_need(needs: &mut Vec<Need>, need: Option<WideNeed>) -> Result<(), OutOfMemory>
    requires { IsWithin (evenly REACH) need }
    ensures { OnOk result (map need_of needs.new.items ≡ map need_of needs.old.items ++ need ∷ []) }
{
    let need = match need {
        None => Need::Unused,
        Some(WideNeed { back, ahead }) => Need::Used {
            back: back as i64,
            ahead: ahead as i64,
        },
    };
    needs.push(need)?;
    Ok(())
}
