//! Tests of bounds. A table has queries with the intervals of their inputs, and the intervals of their sources or the first overflow.
//! Another has queries with what is known of their inputs, and what is printed of them.
//!
//! The expected intervals were worked out by hand, most of them at the edge of 64 bits.
#![tactic(auto)]

#[cfg(test)]
mod cases;
#[cfg(test)]
mod printed;
#[cfg(test)]
mod queries;
#[cfg(test)]
mod reports;
