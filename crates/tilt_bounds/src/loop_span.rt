ghost use Rattle.std.specs.Prelude.{◌≡◌, ◌+◌, ◌<◌, ◌≤ℤ◌, ◌<ℤ◌, neg_ℤ, length, Ok, Some, IsSome};
ghost use Rattle.std.specs.List.{slice_index_or};
ghost use Rattle.tilt_base.specs.declared.limits.TheConstants.{T, WIDE};
ghost use Rattle.tilt_bounds.specs.Margins.{margins_of, need_at};
ghost use Rattle.tilt_bounds.specs.Stretch.{cut_down, stretch_of};
ghost use Rattle.tilt_core.specs.CoreTree.{Definition};
ghost use Rattle.tilt_core.specs.Needs as needs;

use crate::margins::Margins;
use crate::need::Need;
use tilt_base::Span;
use tilt_core::Core;

/// The stretch `(lo, hi]` of time on which a loop runs, in ticks.
#[derive(Clone, Copy, Debug, PartialEq, Eq)]
pub struct LoopSpan {
    pub lo: i64,
    pub hi: i64,
    /// The definition's span left nothing of the stretch, so the definition is null on all of it.
    pub empty: bool,
}

/// The stretch of the loop of a definition, for the output on `(lo, hi]`: as far as the definition is read, cut down to its span if one is
/// written. If the span leaves nothing, it is the uncut stretch. Definitions are numbered from 0.
pub fn stretch(core: &Core, reach: &Margins, def: u32, lo: i64, hi: i64) -> LoopSpan
    requires margins { margins_of core.now ≡ Ok reach.now }
    requires used { IsSome (need_at reach.now.needs (length core.now.inputs + def)) }
    requires numbered { def < length core.now.defs }
    requires low { neg_ℤ T ≤ℤ lo }
    requires some { lo <ℤ hi }
    requires high { hi ≤ℤ T }
    ensures stretch { (d : Definition) (n : needs.Need) → d ≡ slice_index_or core.now.defs def d
        → need_at reach.now.needs (length core.now.inputs + def) ≡ Some n → result ≡ stretch_of d n lo hi }
    ensures bounds { (neg_ℤ WIDE ≤ℤ result.lo) × (result.lo <ℤ result.hi) × (result.hi ≤ℤ WIDE) }
{
    let place = def as usize;
    let definition = &core.defs()[place];
    match reach.needs()[core.inputs().len() + place] {
        Need::Unused => unreachable!(),
        Need::Used { back, ahead } => cut_down(definition.over, lo - back, hi + ahead),
    }
}

// The stretch `(lo, hi]`, cut down to a span if one is written; uncut if that leaves nothing.
fn cut_down(span: Option<Span>, lo: i64, hi: i64) -> LoopSpan
    ensures { result ≡ cut_down span lo hi }
{
    let Some(span) = span else {
        return LoopSpan {
            lo,
            hi,
            empty: false,
        };
    };
    let start = lo.max(span.start);
    let end = hi.min(span.end);
    if start < end {
        LoopSpan {
            lo: start,
            hi: end,
            empty: false,
        }
    } else {
        LoopSpan {
            lo,
            hi,
            empty: true,
        }
    }
}
