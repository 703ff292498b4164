//! What is known of a query's inputs while data arrive, and what of its output is final then.
//!
//! What comes in is the events of a feed, one after another: rows, values whose end isn't known yet, and watermarks. `specs/` says what
//! a feed is after them (`Feed`, `Events`), and up to which tick each source of the query is known (`Horizon`). It also says which marks
//! are sure beyond it (`Sure`), which snapshots may be printed (`Printed`), and what the inputs have if nothing more happens (`Resting`).
//!
//! These are definitions, and the functions of `law` have their laws as clauses. What is printed is final, and it is the whole output in
//! the end. The horizon isn't below the tick up to which sessions decide the output. What is printed is the part of the output on the rows
//! at rest that ends at the horizon or below it. `update_fault` returns the first rule that an update breaks. Nothing here takes memory.
#![tactic(auto)]

mod allowed;
mod edge;
mod event;
mod fault;
mod law;
mod open_row;
mod update;

pub use allowed::{continues, update_fault};
pub use edge::Edge;
pub use event::Event;
pub use fault::EventFault;
pub use law::{
    all_is_printed, feeds_are_in_order, horizon_is_timely, known_is_final, printed_of_resting_rows,
    resting_rows_go_on,
};
pub use open_row::OpenRow;
pub use update::Update;
