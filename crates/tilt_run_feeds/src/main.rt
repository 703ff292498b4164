//! Runs feeds of a query, for the checks: what is final after each line, and what has begun.
//!
//! The first argument is the file of the query. After it `--plain` leaves the code as it is, without fusion. `--resumed N` drops the engine
//! after each N lines. With `--after CHECKPOINT [--plain]` each feed goes on from the checkpoint of sessions in that file.
//! Standard input has lines of feeds without keys; an empty line starts another feed. After each other line it prints each new snapshot as
//! `start,end,value`, then what has begun as `start,,value`, and then `.`. If the event isn't allowed, it prints `!` and the rule that is
//! broken in place of the snapshots.
//!
//! When an engine is dropped, the state of its feed is written as text, and read back. Another engine goes on from that. Its code is fused
//! if the code of the one before wasn't. What is printed has to be the same.
#![tactic(auto)]

mod engine;
mod resuming;
mod runner;

use runner::run;
use std::test::Fail;

fn main(rt: HostRuntime) -> Result<(), Fail> {
    run(&rt)
}
