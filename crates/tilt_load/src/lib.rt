//! From the files that the arguments name to what they say: a query with its core, a pipeline of operators with the core of its query, or
//! a checkpoint. Also a loop code, the rows of each input, and edits of the rows. `load` is for files whose bytes another crate reads.
//!
//! The calls are given a shelf, names of files and binds. They return the query, the pipeline, the checkpoint, the code, the rows or the
//! edits, or the first fault. The clauses `taken` say what was read, by `specs/QueryFile`, `specs/FlowFile`, `specs/CheckpointFile`,
//! `specs/CodeFile`, `specs/SeriesFiles` and `specs/EditsFile`. The clauses `fault` say why nothing was, by `specs/Load`: a read fault
//! only if its count rose, a refusal only if it is the outcome. The clauses `given` say that each file that is taken was read once and to
//! its end. A query comes as what the compiler accepted, with fusion or without. The clauses of `cuts_by` say which cuts the arguments
//! give to the inputs of a query, by `specs/InputCuts`.
#![tactic(auto)]

mod binds;
mod checkpoint_file;
mod code_file;
mod cuts;
mod edits_file;
mod file;
mod flow_file;
mod inputs;
mod names;
mod query_file;
mod series_file;

pub use checkpoint_file::{LoadedCheckpoint, load_checkpoint};
pub use code_file::load_code;
pub use cuts::cuts_by;
pub use edits_file::load_edits;
pub use file::load;
pub use flow_file::{LoadedFlow, load_flow};
pub use inputs::{load_inputs, load_session_inputs};
pub use query_file::{LoadedQuery, load_query, read_query};
