//! The program `tilt`: it hands its arguments with the files of the disk, the standard streams and four watchers to the one
//! call that does the work.
#![tactic(auto)]

use std::alloc::AllocError as OutOfMemory;
use std::process::{self, ExitCode};
use std::{env, io};
use tilt_app::tilt;
use tilt_outside::{BufferedSink, DiskShelf, StdSink};
use tilt_watch::{Ends, FirstRows, Range, Tally, Watcher};

/// The status if the program isn't handed its arguments: one of them is no UTF-8, or there is no memory for them.
const NO_WORDS: u8 = 7;

/// The status if there is no memory for the buffer of the output or for the watchers.
const NO_MEMORY: u8 = 5;

/// How many rows the last watcher counts.
const FIRST_ROWS: u64 = 3;

fn main(rt: HostRuntime) -> ExitCode {
    let Ok(words) = words(&rt) else {
        return ExitCode::from(NO_WORDS);
    };
    ExitCode::from(status(&rt, &words).unwrap_or(NO_MEMORY))
}

// Does what the arguments say, beside a watcher of each kind that has no limit, and one of the first rows.
fn status(rt: &HostRuntime, words: &[String]) -> Result<u8, OutOfMemory> {
    let mut shelf = DiskShelf::new(rt.alloc(), rt, process::id(rt.process()));
    let mut out = BufferedSink::new(rt.alloc(), rt.stdout())?;
    let mut err = StdSink::new(rt.stderr());
    let mut watchers: Vec<Box<dyn Watcher>> = Vec::new(rt.alloc());
    watchers.push(Box::new(rt.alloc(), Tally::new())?)?;
    watchers.push(Box::new(rt.alloc(), Range::new())?)?;
    watchers.push(Box::new(rt.alloc(), Ends::new())?)?;
    watchers.push(Box::new(rt.alloc(), FirstRows::new(FIRST_ROWS))?)?;
    Ok(tilt(
        rt.alloc(),
        words,
        &mut shelf,
        &mut out,
        &mut err,
        &mut watchers,
    ))
}

// The arguments after the program's name.
fn words(rt: &HostRuntime) -> io::Result<Vec<String>> {
    let mut words = Vec::new(rt.alloc());
    for word in env::args(rt)?.skip(1) {
        words.push(word)?;
    }
    Ok(words)
}
