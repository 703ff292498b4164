use crate::fused::Fused;
use std::marker::Model;

/// A loop, and what it computes. A clause sees it as plain data.
#[derive(Debug, Drop)]
pub struct PlanLoop {
    /// The number of the definition whose loop it is, from 0.
    pub def: u32,
    pub body: Fused,
}

impl Model for PlanLoop {
    ghost use Rattle.tilt_fuse.specs.FusedTree.{PlannedLoop, coded_planned, fused_tree_of};

    ghost Value = { PlannedLoop };

    ghost coded = { coded_planned };

    ghost view = { λ l. record { def = l.def; body = fused_tree_of l.body } };
}
