//! Tests of the live engine: feeds, event by event, and what comes out after each, also from a checkpoint of sessions on; lines of feeds;
//! and watermarks.
//!
//! The expected values were worked out by hand from the rules of what is final after an event, of what a line says,
//! and of watermarks.
#![tactic(auto)]

#[cfg(test)]
mod feeds;
#[cfg(test)]
mod lines;
#[cfg(test)]
mod resume;
#[cfg(test)]
mod started;
#[cfg(test)]
mod watermarks;
#[cfg(test)]
mod worked;
