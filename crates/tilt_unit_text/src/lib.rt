//! Queries in the units of their data, from their text.
//!
//! What comes in is a text in which literals can be decimals, as `temperature > 23.5`, and the scales of inputs by their names. What goes
//! out is the query over whole numbers with its core, and the quantity of each of its sources; or the first fault, with its place.
//!
//! `specs/Reading` says which. The points are taken out of the text, and the rest is read as any query (`specs/Points`). Each point has
//! to be between two digits of a number of that, and the digits after it are the number's decimals (`specs/Numbers`). The query of the
//! text in which each number is its count shows which number is where (`specs/Places`). So each literal is a decimal, and
//! `tilt_units` translates the definitions (`specs/Units`). The statements over whole numbers are the text's, with the numbers of those
//! definitions (`specs/Named`). So `print` gives their text, unless one is too long (`specs/Size`).
//!
//! The clauses of `read_in_units` say that what it gives is what the text is, and that a text is one thing only. By the clauses of
//! `read_texts_keep_meaning`, a text that is read is one query in units (`specs/Said`), and over whole numbers it means that query. By the
//! clause of `whole_texts_keep_meaning`, a text without points means what it means to `tilt`, if the scale of each input is 1.
#![tactic(auto)]

mod decimal;
mod definitions;
mod expression;
mod fault;
mod law;
mod named;
mod noted;
mod places;
mod points;
mod reading;
mod scales;
mod size;
mod statement;
mod unit_query;
mod whole;
mod written;

pub use fault::UnitFault;
pub use law::{read_texts_keep_meaning, whole_texts_keep_meaning};
pub use reading::read_in_units;
pub use unit_query::UnitQuery;
