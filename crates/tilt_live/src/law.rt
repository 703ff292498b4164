// Laws of loop code.
ghost use Rattle.std.specs.Prelude.{◌≡◌, ℤ, Bool, List, length, Some, Ok};
ghost use Rattle.tilt_base.specs.declared.span.Span.{Span};
ghost use Rattle.tilt_bounds.specs.Margins.{MarginsParts, margins_of};
ghost use Rattle.tilt_core.specs.Core.{CoreParts, IsCore, domain_of};
ghost use Rattle.tilt_live.specs.Laws.{EndsOn, Reaches};
ghost use Rattle.tilt_feed.specs.Horizon.{Horizon};
ghost use Rattle.tilt_fuse.specs.Plan.{plan_of};
ghost use Rattle.tilt_lower.specs.Lowering.{code_of};

/// This does nothing. Its clauses are laws of the definitions. The code of a query, with fusion or without, is known at each tick at
/// which the query is known. The last loop of the code runs on the output domain.
pub fn code_reaches_the_horizon()
    ensures known { (core : CoreParts) (margins : MarginsParts) (fuse : Bool) (lo hi : ℤ) (hs : List Horizon)
        → IsCore core → margins_of core ≡ Ok margins → length hs ≡ length core.inputs
        → Reaches core (code_of (plan_of core fuse) core margins lo hi) hs }
    ensures ends { (core : CoreParts) (margins : MarginsParts) (fuse : Bool) (domain : Span)
        → IsCore core → margins_of core ≡ Ok margins → domain_of core.defs ≡ Some domain
        → EndsOn (code_of (plan_of core fuse) core margins domain.start domain.end) domain }
{}
