//! Pipelines of operators: what they are, what they give, and the query of each.
//!
//! A text comes in, and the pipeline that it is goes out, or its first fault. The clauses of `read_flow` say which (`flow`, `only`,
//! `faulty`, `first`), over `specs/Steps`, which says which tokens are a pipeline, or which of their steps is the first faulty one. A
//! pipeline comes in, and the query of `specs/Desugared` goes out of `desugar`. `specs/Lists` says what a pipeline gives, by lists of
//! snapshots and their boundaries; by the clause `law` of `query_keeps_meaning`, on all series the core of that query gives just
//! this. `flow_inputs` gives the inputs that a pipeline reads.
#![tactic(auto)]

mod desugaring;
mod fault;
mod flow;
mod inputs;
mod law;
mod one_step;
mod operands;
mod part;
mod reader;
mod renamed;
mod step;
mod steps;
mod typed;

pub use desugaring::desugar;
pub use fault::FlowFault;
pub use flow::Flow;
pub use inputs::flow_inputs;
pub use law::{query_keeps_meaning, tokens_have_one_outcome};
pub use operands::Operands;
pub use reader::read_flow;
pub use step::Step;
