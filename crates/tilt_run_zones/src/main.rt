//! Works out local times of zones, for the checks.
//!
//! Each line of standard input is a question. `zone PATH` reads the file of a zone, for the questions after it; `read` is printed, or why
//! there is no zone. `local N` asks for the moments at which clocks show the local time `N`, in seconds. What is printed is the moment that
//! is meant without a fold, with the first one and with the second one. `taken N` asks the same, and then a fold gives a moment to a
//! local time that clocks skip too. `moment N` asks for the local time that clocks show at the moment `N`. In place of a number, `skipped`,
//! `doubled` or `beyond` says why there is none.
#![tactic(auto)]

mod answer;

use answer::{answer_local, answer_moment, answer_taken};
use std::fs;
use std::io::{self, BufRead, BufReader, BufWriter, Write};
use std::test::Fail;
use tilt_zones::{Zone, read_zone};

fn main(rt: HostRuntime) -> Result<(), Fail> {
    let alloc = rt.alloc();
    let mut out = BufWriter::new(alloc, io::writer(&rt))?;
    let mut zone = None;
    for line in BufReader::new(alloc, rt.reader())?.lines(alloc) {
        let line = line?;
        match line.as_str().split_once(' ') {
            Some(("zone", path)) => zone = zone_at(&rt, path, &mut out)?,
            Some((question, number)) => take_question(&zone, question, number, &mut out)?,
            None => return Err("no question".into()),
        }
    }
    out.flush()?;
    Ok(())
}

// The zone of a file, if it has one.
fn zone_at<W: Write>(rt: &HostRuntime, path: &str, out: &mut W) -> Result<Option<Zone>, Fail> {
    let bytes = fs::read(rt, path)?;
    match read_zone(rt.alloc(), &bytes) {
        Ok(zone) => {
            writeln!(out, "read")?;
            Ok(Some(zone))
        }
        Err(fault) => {
            writeln!(out, "{fault}")?;
            Ok(None)
        }
    }
}

// Answers a question about a zone.
fn take_question<W: Write>(
    zone: &Option<Zone>,
    question: &str,
    number: &str,
    out: &mut W,
) -> Result<(), Fail> {
    let Some(zone) = zone else {
        return Err("no zone".into());
    };
    let number = number.parse()?;
    match question {
        "local" => answer_local(zone, number, out),
        "taken" => answer_taken(zone, number, out),
        "moment" => answer_moment(zone, number, out),
        _ => Err("no such question".into()),
    }
}
