//! Made runs: two series from a seed, a query over them, and the summary of what it printed. What comes in is a seed and a
//! count of rows; what goes out is exactly the rows of `specs/Generator`: the clauses of `made_rows`. `query_text` and
//! `summary` give exactly the texts of `specs/TryQuery` and `specs/Summary`.
#![tactic(auto)]

mod generator;
mod query;
mod series;
mod sums;

pub use query::query_text;
pub use series::made_rows;
pub use sums::summary;
