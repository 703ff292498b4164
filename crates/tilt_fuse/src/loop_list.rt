use crate::plan_loop::PlanLoop;

/// The loops of a query, in the order of their definitions.
#[derive(Debug, Drop)]
pub struct LoopList {
    pub loops: Vec<PlanLoop>,
}
