//! One line of a live feed, from its bytes to what it says.
//!
//! What comes in is the bytes of a line and the names of a query's inputs. What goes out is what the line says, or the first cause why it
//! says nothing. The clause `said` of `LineReader::read_line` says so over the definition `line_said`, and the clause of
//! `LineReader::read_keyed_line`, for feeds with keys, over `keyed_line_said`. Both are in `specs/Lines`.
//!
//! A line without its LF is one CSV record of one of these forms:
//!
//! - `name,start,end,value`: a row on (start, end]; without a value, if `value` is empty
//! - `name,start,,value`: the value holds from `start` on
//! - `name,start,,`: no value holds from `start` on
//! - `name,,end,`: the input is known up to `end`
//! - `,,end,`: all inputs are known up to `end`
//! - `,,,`: nothing more comes
//!
//! In a feed with keys, the key is one more field before these, and what the line says is about the inputs of the key. The key is empty
//! only in `,,,end,`: all inputs of all keys are known up to `end`.
//!
//! The clauses of `updates_have_lines` and `keys_go_before_lines` are laws of these definitions: what can be said has a line that says it.
//! Whether an update is allowed after those before it is for `tilt_feed::update_fault` to say: a line may have any times of 64 bits.
#![tactic(auto)]

mod fault;
mod form;
mod key;
mod law;
mod line;
mod plain;
mod quick;
mod reader;
mod record;
mod row;

pub use fault::{LineFault, ReadLineFault};
pub use key::Key;
pub use law::{keys_go_before_lines, updates_have_lines};
pub use line::{KeyedLine, Line};
pub use reader::LineReader;
