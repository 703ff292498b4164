//! An accepted query as one value, and the compiler.
//!
//! What comes in is a core. What goes out is an `Accepted`, which keeps the core, its margins and the plan of its loops together. From
//! that comes the loop code for any part of the output domain. The passes are composed in `compiler` alone. `accept` rejects exactly
//! what looks too far. The clause `means` of `code_on` is the statement of the whole compiler: over all rows, the run of the code
//! gives the snapshots of what the query means. `run_on` runs it.
#![tactic(auto)]

mod compiler;
mod run;

pub use compiler::{Accepted, accept};
