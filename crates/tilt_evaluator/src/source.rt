use tilt_core::Def;
use tilt_stream::Rows;

/// One source of a query, and what it is made from.
#[derive(Clone, Copy)]
pub struct Source<'a> {
    /// The rows of the inputs.
    pub inputs: &'a [Rows],
    /// The definitions, each over the inputs and the definitions before it.
    pub defs: &'a [Def],
    /// The number of the source: the inputs have the numbers from 0 on, then the definitions.
    pub number: u32,
}
