//! Queries in the units of their data, translated to queries of whole numbers.
//!
//! What comes in is the scale of each input, and definitions whose literals are decimals. What goes out is the same definitions over
//! whole numbers, and the quantity of each: truth values, or numbers at a scale. A number at the scale 10 is in tenths: 965 is 96.5.
//!
//! `specs/Scaling` says which scale each expression has and what it is translated to. The clause of `translate` says that the result is
//! that translation, or the first fault, with its place. `specs/Exact` says what a query means exactly: the stream of each source, over
//! fractions. By the clauses of `translation_keeps_meaning`, each cell of the translation divided by its scale is the exact cell, wherever
//! no node that it depends on leaves 64 bits. The marks are the same everywhere. The scales of inputs and literals must be positive.
#![tactic(auto)]

mod decimal;
mod definition;
mod fault;
mod law;
mod place;
mod quantity;
mod scale;
mod scaled;
mod translated;
mod tree;

pub use decimal::Decimal;
pub use definition::DecimalDef;
pub use fault::ScaleFault;
pub use law::translation_keeps_meaning;
pub use place::Place;
pub use quantity::Quantity;
pub use scale::Scale;
pub use translated::{Translated, translate};
pub use tree::DecimalTree;
