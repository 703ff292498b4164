//! Tests of live feeds with keys.
//!
//! The expected values were worked out by hand from the rules of what is final after a line, and of which lines are bad.
#![tactic(auto)]

#[cfg(test)]
mod feeds;
