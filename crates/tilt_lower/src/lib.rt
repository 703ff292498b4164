//! From a query to loop code.
//!
//! What comes in is a core, its margins, and the plan of its loops; what goes out is a code. `lower` gives the code that `specs/Lowering`
//! defines (`code`), and its clause `means` says what the code is for. Over all rows it gives what the query gives, and each of its buffers
//! agrees with its source on all that the source is asked for (`specs/Law`).
#![tactic(auto)]

mod buffers;
mod definition_loop;
mod instructions;
mod map_blocks;
mod query_code;

pub use query_code::lower;
