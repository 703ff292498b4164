//! Series files, and the text of snapshots.
//!
//! What comes in is the bytes of a file; what goes out is its rows, or the first fault: the clause of `read_rows`, over
//! the definition `series_of`. The other way, `put_header`, `put_rows` and `put_snap` put the text of snapshots, line by line:
//! their clauses.
#![tactic(auto)]

mod bounds;
mod fault;
mod line;
mod print;
mod records;
mod row;
mod series;

pub use bounds::Bounds;
pub use fault::{ReadRowsFault, SeriesFault};
pub use print::{put_header, put_rows, put_snap, row_text};
pub use series::read_rows;
