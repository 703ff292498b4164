//! Tests of single readings: decimals, ticks, numbers since 1970, and dates; of lines of readings; of the events of their feed; of whole
//! texts; and of options.
//!
//! The expected values are those of Python's modules `decimal` and `datetime`. Ticks are those of `floor` and `ceil` of Python's integers.
//! //! Moments of local times are those of its module `zoneinfo`. The rows of feeds are those that `tilt-data series` writes.
#![tactic(auto)]

#[cfg(test)]
mod dates;
#[cfg(test)]
mod decimals;
#[cfg(test)]
mod feeds;
#[cfg(test)]
mod lines;
#[cfg(test)]
mod options;
#[cfg(test)]
mod rows;
#[cfg(test)]
mod texts;
#[cfg(test)]
mod ticks;
#[cfg(test)]
mod zones;
