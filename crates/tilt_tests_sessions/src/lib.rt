//! Tests of sessions: the spelling of checkpoints, and what a query prints part by part.
//!
//! The expected values were worked out by hand. They follow from the rules of what is decided at a cut and which rows are kept
//! then, and from the spelling of a checkpoint line by line.
#![tactic(auto)]

#[cfg(test)]
mod checkpoint;
#[cfg(test)]
mod session;
