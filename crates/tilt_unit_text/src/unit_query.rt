use tilt_core::Core;
use tilt_syntax::Query;
use tilt_units::Quantity;

/// A query over whole numbers, and what they represent.
#[derive(Debug, Drop)]
pub struct UnitQuery {
    /// The query over whole numbers. It is well formed.
    pub query: Query,
    /// Its core.
    pub core: Core,
    /// What each source represents: the inputs in order, then the definitions. The last one is emitted.
    pub quantities: Vec<Quantity>,
}
