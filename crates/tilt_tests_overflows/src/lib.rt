//! Tests of watching queries. A table has queries with rows at the ends of 64 bits, and what their watching queries emit. Others have
//! queries that are as large as a watched query may be, and larger ones.
//!
//! The expected snapshots were worked out by hand: at which ticks an exact result is above 9223372036854775807 or below
//! -9223372036854775808, and where a snapshot that it depends on starts.
#![tactic(auto)]

#[cfg(test)]
mod cases;
#[cfg(test)]
mod sizes;
#[cfg(test)]
mod watches;
