//! Tests of the texts of live states, and of what is kept of texts of readings, on texts that were written by hand.
#![tactic(auto)]

#[cfg(test)]
mod readings;
#[cfg(test)]
mod runs;
#[cfg(test)]
mod texts;
#[cfg(test)]
mod zones;
