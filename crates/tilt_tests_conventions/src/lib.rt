//! Tests of what readings mean: which updates of a feed they become, turn by turn.
//!
//! The rows of `holding`, `events` and `ties` are those that `docs/DATA.md` shows for its files, and those that `tilt_data.convert` gives
//! for the same readings. The updates in between were worked out by hand.
#![tactic(auto)]

#[cfg(test)]
mod events;
#[cfg(test)]
mod faults;
#[cfg(test)]
mod holding;
#[cfg(test)]
mod ties;
