//! Tests of what lies around a query: the arguments of a command line, watchers, and made runs.
//!
//! The expected values were worked out by hand.
#![tactic(auto)]

#[cfg(test)]
mod made;
#[cfg(test)]
mod tables;
#[cfg(test)]
mod watch;
#[cfg(test)]
mod words;
