//! A query file in the units of its data, from the shelf to the query over whole numbers that it is.
//!
//! What comes in is a shelf, the name of a file, and the scales of inputs. What goes out is the query over whole numbers with its core,
//! as the compiler accepted it, and how many decimals its output has; or the first fault.
//!
//! `specs/UnitFile` says what a file is: `IsLoadedInUnits` is the query, and `RefusesUnits` why there is none. The clauses `loaded` and
//! `fault` of `load_in_units` are over these. `specs/UnitReport` has the status and the line of each fault. By the clauses of
//! `files_in_units_are_one_thing`, a file is one query only, or has one fault only. By the clauses of `loaded_queries_keep_meaning`, what
//! the query over whole numbers emits, with its decimals, is exactly what the query in units emits.
#![tactic(auto)]

mod decimals;
mod fault;
mod law;
mod line;
mod report;
mod unit_file;

pub use fault::{UnitFileFault, UnitLoadFault, UnitStatementFault};
pub use law::{files_in_units_are_one_thing, loaded_queries_keep_meaning};
pub use unit_file::{LoadedUnits, load_in_units};
