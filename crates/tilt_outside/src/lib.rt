//! The outside of the program: a shelf of named files that is read and saved to, and a sink of bytes that is written to. Input and
//! output are bytes. A fault is reported only if the count of faults rose (the clauses `cause`). `read_all` reads a whole file up
//! to a limit (`whole`, `short`), and leaves the shelf as `OnlyReads` of `specs/Reads` says (`rest`). `MemShelf` and `MemSink`
//! replace the outside in tests, and fail at the calls that the test names; `SureShelf` and `SureSink` never fail.
#![tactic(auto)]

mod beside;
mod buffered_sink;
mod digits;
mod disk_shelf;
mod failed;
mod held_file;
mod held_files;
mod links;
mod mem_shelf;
mod mem_sink;
mod replacing;
mod shelf;
mod sink;
mod std_sink;
mod sure_shelf;
mod sure_sink;
mod uninterrupted;
mod whole_file;

pub use buffered_sink::BufferedSink;
pub use disk_shelf::DiskShelf;
pub use failed::Failed;
pub use mem_shelf::MemShelf;
pub use mem_sink::MemSink;
pub use shelf::Shelf;
pub use sink::Sink;
pub use std_sink::StdSink;
pub use sure_shelf::SureShelf;
pub use sure_sink::SureSink;
pub use whole_file::{ReadAllFault, read_all};
