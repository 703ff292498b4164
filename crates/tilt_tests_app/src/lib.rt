//! Tests of the program's one call, over files and sinks in memory: reads, writes, saves and lines that fail, runs that never fail, and
//! what watchers have seen. What each command prints and rejects without a fault is in the tables of `tools/check/calls`, by which the
//! built program is tried.
//!
//! The expected texts were worked out by hand from the rules of the language and the table of refusals.
#![tactic(auto)]

#[cfg(test)]
mod call;
#[cfg(test)]
mod faults;
#[cfg(test)]
mod saving;
#[cfg(test)]
mod sure;
#[cfg(test)]
mod watching;
