//! The program `tilt-live`: it hands its arguments, with the files and folders of the disk and the standard streams, to the one call that
//! does the work.
//!
//! A read from standard input returns what there is and doesn't wait for more, so a line is answered as soon as it has come.
#![tactic(auto)]

use std::alloc::AllocError as OutOfMemory;
use std::process::{self, ExitCode};
use std::{env, io};
use tilt_live_app::live;
use tilt_outside::{DiskShelf, StdSink};
use tilt_port::StdPort;
use tilt_store::DiskFolders;

/// The status if the program doesn't get its arguments: one of them isn't UTF-8, or there is no memory for them.
const NO_ARGUMENTS: u8 = 7;

/// The status if there is no memory for the buffer of the output.
const NO_MEMORY: u8 = 5;

fn main(rt: HostRuntime) -> ExitCode {
    let Ok(words) = arguments(&rt) else {
        return ExitCode::from(NO_ARGUMENTS);
    };
    ExitCode::from(status(&rt, &words).unwrap_or(NO_MEMORY))
}

// Does what the arguments say.
fn status(rt: &HostRuntime, words: &[String]) -> Result<u8, OutOfMemory> {
    let program = process::id(rt.process());
    let mut shelf = DiskShelf::new(rt.alloc(), rt, program);
    let mut folders = DiskFolders::new(rt, program);
    let mut port = StdPort::new(rt.alloc(), rt.stdin(), rt.stdout())?;
    let mut err = StdSink::new(rt.stderr());
    let lived = live(
        rt.alloc(),
        words,
        &mut shelf,
        &mut folders,
        &mut port,
        &mut err,
    );
    Ok(lived.status)
}

// The arguments after the program's name.
fn arguments(rt: &HostRuntime) -> io::Result<Vec<String>> {
    let mut words = Vec::new(rt.alloc());
    for word in env::args(rt)?.skip(1) {
        words.push(word)?;
    }
    Ok(words)
}
