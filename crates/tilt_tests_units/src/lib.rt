//! Tests of queries in units. A table has expressions with the scales of their inputs, and what they are over whole numbers. Another has
//! the same of texts. The last tests load query files, and have what they emit in units.
//!
//! The expected expressions and scales were worked out by hand, from what each means in the units of its inputs.
#![tactic(auto)]

#[cfg(test)]
mod cases;
#[cfg(test)]
mod checking;
#[cfg(test)]
mod checks;
#[cfg(test)]
mod files;
#[cfg(test)]
mod loading;
#[cfg(test)]
mod reading;
#[cfg(test)]
mod texts;
#[cfg(test)]
mod translation;
