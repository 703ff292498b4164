// An accepted query, and the passes from its core to its code.
ghost use Rattle.std.specs.Prelude.{◌≡◌, List, Ok, Some, IfOk, IfErr, length};
ghost use Rattle.tilt_bounds.specs.Margins.{IsTold, margins_of};
ghost use Rattle.tilt_code.specs.Run.{run_of};
ghost use Rattle.tilt_compiler.specs.Accepted.{IsAccepted};
ghost use Rattle.tilt_compiler.specs.Compiled.{IsCodeOf, given};
ghost use Rattle.tilt_core.specs.Core.{IsStretch, domain_of};
ghost use Rattle.tilt_core.specs.Meaning.{output_of};
ghost use Rattle.tilt_fuse.specs.Plan.{plan_of};
ghost use Rattle.tilt_lower.specs.Law.{LiesWithin};
ghost use Rattle.tilt_lower.specs.Lowering.{code_of};
ghost use Rattle.tilt_stream.specs.Snap.{Snapshot};

use std::alloc::{AllocError as OutOfMemory, Global};
use std::marker::Model;
use tilt_base::Span;
use tilt_bounds::{Margins, ReachFault, reach};
use tilt_code::Code;
use tilt_core::Core;
use tilt_fuse::{LoopList, plan};
use tilt_lower::lower;

/// A query that was accepted: its core, how far it looks, and the plan of its loops, with fusion or without. The margins and the
/// plan belong to the core. A clause sees it as plain data: the core, the margins, and whether definitions are fused.
#[derive(Debug, Drop)]
pub struct Accepted {
    core: Core,
    margins: Margins,
    plan: LoopList,
    fuse: bool,
}

impl Model for Accepted {
    ghost use Rattle.std.specs.Prelude.{◌≡◌};
    ghost use Rattle.tilt_compiler.specs.Accepted.{AcceptedParts, IsAccepted, coded_accepted};
    ghost use Rattle.tilt_fuse.specs.Plan.{plan_of};

    ghost Value = { AcceptedParts };

    ghost coded = { coded_accepted };

    ghost view = { λ a. record { core = a.core; margins = a.margins; fuse = a.fuse } };

    ghost invariant = { λ a.
        IsAccepted (record { core = a.core; margins = a.margins; fuse = a.fuse }) × (a.plan.loops.items ≡ plan_of a.core a.fuse) };
}

/// The query of a core, with fusion or without. `TooFar` comes exactly if its look-back or its look-ahead is above `REACH`.
pub fn accept(alloc: Global, core: Core, fuse: bool) -> Result<Accepted, ReachFault>
    ensures core { IfOk result (λ accepted. accepted.core ≡ core) }
    ensures margins { IfOk result (λ accepted. margins_of core ≡ Ok accepted.margins) }
    ensures fuse { IfOk result (λ accepted. accepted.fuse ≡ fuse) }
    ensures refused { IfErr result (λ fault. IsTold (margins_of core) fault) }
{
    let margins = reach(alloc, &core)?;
    Ok(Accepted::of(alloc, core, margins, fuse)?)
}

impl Accepted {
    /// The query of a core whose margins are known, with fusion or without.
    pub fn of(
        alloc: Global,
        core: Core,
        margins: Margins,
        fuse: bool,
    ) -> Result<Accepted, OutOfMemory>
        requires { margins_of core ≡ Ok margins }
        ensures { IfOk result (λ accepted. accepted ≡ record { core = core; margins = margins; fuse = fuse }) }
    {
        // What a core and margins keep is known from here on.
        let _ = core.inputs();
        let _ = margins.needs();
        let plan = plan(alloc, &core, fuse)?;
        Ok(Accepted {
            core,
            margins,
            plan,
            fuse,
        })
    }

    /// The core.
    pub fn core(&self) -> &Core
        ensures value { result.now ≡ self.now.core }
        ensures kept { IsAccepted self.now }
    {
        &self.core
    }

    /// How far the query looks.
    pub fn margins(&self) -> &Margins
        ensures value { result.now ≡ self.now.margins }
        ensures kept { IsAccepted self.now }
    {
        &self.margins
    }

    /// The output domain.
    pub fn domain(&self) -> Span
        ensures value { domain_of self.now.core.defs ≡ Some result }
        ensures stretch { IsStretch (Some result) }
        ensures kept { IsAccepted self.now }
    {
        self.core.domain()
    }

    /// The code for the output on `(lo, hi]`, in ticks, which lies within the output domain. The clause `means` is the statement of
    /// the compiler.
    pub fn code_on(&self, alloc: Global, lo: i64, hi: i64) -> Result<Code, OutOfMemory>
        requires { LiesWithin (domain_of self.now.core.defs) lo hi }
        ensures code { IfOk result (λ code. code ≡ code_of (plan_of self.now.core self.now.fuse) self.now.core self.now.margins lo hi) }
        ensures inputs { IfOk result (λ code. code.inputs ≡ self.now.core.inputs) }
        ensures means { IfOk result (λ code. (rows : List (List Snapshot)) → length rows ≡ length self.now.core.inputs
            → run_of code rows ≡ given self.now.core rows lo hi) }
    {
        lower(alloc, &self.plan, &self.core, &self.margins, lo, hi)
    }

    /// The code on the output domain: its run is what the query gives, whatever the rows are.
    pub fn code(&self, alloc: Global) -> Result<Code, OutOfMemory>
        ensures code { IfOk result (λ code. IsCodeOf self.now.core self.now.fuse code) }
        ensures inputs { IfOk result (λ code. code.inputs ≡ self.now.core.inputs) }
        ensures means { IfOk result (λ code. (rows : List (List Snapshot)) → length rows ≡ length self.now.core.inputs
            → output_of self.now.core rows ≡ Some (run_of code rows)) }
    {
        let domain = self.domain();
        self.code_on(alloc, domain.start, domain.end)
    }
}
