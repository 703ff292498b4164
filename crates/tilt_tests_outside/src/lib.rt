//! Tests of the outside: shelves and sinks, saves, ports, and series files.
//!
//! The expected values were worked out by hand, and expected records are what the crate `csv` takes for one. Stand-ins that
//! fail at given calls show what a shelf, a sink or a port does when the system fails.
#![tactic(auto)]

#[cfg(test)]
mod faulty_files;
#[cfg(test)]
mod files_below;
#[cfg(test)]
mod ports;
#[cfg(test)]
mod saves;
#[cfg(test)]
mod series;
#[cfg(test)]
mod shelves;
#[cfg(test)]
mod sinks;
#[cfg(test)]
mod sure;
