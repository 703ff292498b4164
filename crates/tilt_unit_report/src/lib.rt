//! What a query in units is, and whether a number of it can leave 64 bits, before any data are read.
//!
//! What comes in is a query over whole numbers with its core and its decimals, and the scales of its inputs. With them comes what is known
//! of each input: which numbers it has, and how many marks. What goes out is a text and, if a node can leave 64 bits, the first such node;
//! or the first bound that is of no input. `specs/Report` has the whole text, and the clause `text` says that it is that one.
//!
//! `specs/IllScaled` says when a query is ill-scaled, and in which statement. The clause `ill_scaled` reports that exactly if it is so, as
//! `ill_scaled_queries_have_one_statement` says. The clause `safe` says what a report without it means: on any rows within the bounds, no
//! operator and no reducer overflows.
#![tactic(auto)]

mod bound;
mod fault;
mod ill_scaled;
mod law;
mod leaving;
mod report;
mod text;

pub use bound::InputBound;
pub use fault::BoundFault;
pub use ill_scaled::IllScaled;
pub use law::ill_scaled_queries_have_one_statement;
pub use leaving::can_leave;
pub use report::{MagnitudeReport, report_magnitudes};
pub use text::definition_name;
