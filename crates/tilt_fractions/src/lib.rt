//! Exact fractions, and the whole numbers at scales that represent them.
//!
//! A whole number at a scale represents a fraction if the number divided by the scale is that fraction. In `specs/`, `Fraction` has the
//! arithmetic of fractions, `Exact` the scalar operators over them, with quotients truncated at a scale, and `ExactReduce` the reducers.
//! By the clauses of `whole_numbers_stand_for_fractions` and `reducers_keep_what_numbers_stand_for`, each operator and each reducer of
//! whole numbers keeps what its operands represent. Nothing here runs.
#![tactic(auto)]

mod law;
mod reducers;

pub use law::whole_numbers_stand_for_fractions;
pub use reducers::reducers_keep_what_numbers_stand_for;
