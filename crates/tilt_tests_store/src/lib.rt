//! Tests of the store: what is in the files after crashes at each call, and which folders can't be opened.
//!
//! The expected bytes were worked out by hand.
#![tactic(auto)]

#[cfg(test)]
mod crashes;
#[cfg(test)]
mod disk;
#[cfg(test)]
mod opening;
#[cfg(test)]
mod tears;
