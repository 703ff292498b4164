//! Tests of the machines: rows and snapshots, reducers and windows over them, loop code and its listing, the code of queries,
//! and the two machines that run it.
//!
//! The expected values were worked out by hand: from the definitions of streams, reducers and loops, and, for listings, from
//! the rules of the language.
#![tactic(auto)]

#[cfg(test)]
mod code;
#[cfg(test)]
mod lower;
#[cfg(test)]
mod machine;
#[cfg(test)]
mod pipe;
#[cfg(test)]
mod reduce;
#[cfg(test)]
mod runs;
#[cfg(test)]
mod snap_ring;
#[cfg(test)]
mod stream;
#[cfg(test)]
mod window;
