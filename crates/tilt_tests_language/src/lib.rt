//! Tests of the language: numbers and operators, the tokens of a text, its tree, its core, and what the core means. They also
//! test its look-back and look-ahead, and how it is planned and explained.
//!
//! The expected values were worked out by hand from the rules of the language. They are tables of texts with their tokens,
//! trees, cores and faults, and queries on small series with the snapshots that they mean.
#![tactic(auto)]

#[cfg(test)]
mod base;
#[cfg(test)]
mod bounds;
#[cfg(test)]
mod checking;
#[cfg(test)]
mod evaluator;
#[cfg(test)]
mod explain;
#[cfg(test)]
mod fuse;
#[cfg(test)]
mod lexer;
#[cfg(test)]
mod operators;
#[cfg(test)]
mod parsing;
#[cfg(test)]
mod printing;
#[cfg(test)]
mod table;
#[cfg(test)]
mod worked_queries;
