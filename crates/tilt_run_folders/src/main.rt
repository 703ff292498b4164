//! Serves a feed into folders in memory that crashes tear, for the checks.
//!
//! Its arguments are the file of the query, a seed and a number of trials. Standard input is the feed. In each trial the call of
//! `tilt-live` serves the feed into an empty folder, in pieces of random lengths. Random calls of the folder fail, as if the program had
//! been killed there. A crash then leaves some of what wasn't synced, and the call is made again. At the end the output in the folder has
//! to be what one call prints that isn't killed. The program prints the number of trials, and of crashes in them.
#![tactic(auto)]

mod call;
mod trial;

use call::printed;
use rand_core::SeedableRng;
use rand_xoshiro::SplitMix64;
use std::alloc::Global;
use std::io::Read;
use std::test::Fail;
use std::{env, fs};
use trial::Trial;

fn main(rt: HostRuntime) -> Result<(), Fail> {
    let alloc = rt.alloc();
    let mut words = env::args(&rt)?.skip(1);
    let path = words.next().ok_or("no query")?;
    let seed = number_of(words.next())?;
    let count = number_of(words.next())?;
    let query = fs::read(&rt, path.as_str())?;
    let feed = read_feed(&rt)?;
    let crashes = run_trials(alloc, &query, &feed, seed, count)?;
    println!(&rt; "{count} trials, {crashes} crashes")?;
    Ok(())
}

// The bytes of standard input.
fn read_feed(rt: &HostRuntime) -> Result<Vec<u8>, Fail> {
    let mut feed = Vec::new(rt.alloc());
    rt.reader().read_to_end(&mut feed)?;
    Ok(feed)
}

// The number that an argument is.
fn number_of(word: Option<String>) -> Result<u64, Fail> {
    let word = word.ok_or("no number")?;
    Ok(word.as_str().parse()?)
}

// Runs so many trials, and returns how many crashes there were.
fn run_trials(
    alloc: Global,
    query: &[u8],
    feed: &[u8],
    seed: u64,
    count: u64,
) -> Result<u64, Fail> {
    let expected = printed(alloc, query, feed)?;
    let mut random = SplitMix64::seed_from_u64(seed);
    let mut crashes: u64 = 0;
    for _ in 0..count {
        let trial = Trial {
            alloc,
            query,
            feed,
            expected: &expected,
        };
        crashes = crashes.saturating_add(trial.run(&mut random)?);
    }
    Ok(crashes)
}
