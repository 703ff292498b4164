// A feed that is served into a folder until it is done, with crashes.
ghost use Rattle.std.specs.Prelude.{IfOk};
ghost use Rattle.tilt_store.specs.Crash.{Only};
ghost use Rattle.tilt_store.specs.MemFolder.{mem_may_leave, mem_seen};

use crate::call::call;
use rand_core::Rng;
use rand_xoshiro::SplitMix64;
use std::alloc::Global;
use std::test::Fail;
use tilt_live_app::Lived;
use tilt_port::MemPort;
use tilt_store::{MemFolder, Tear};

// How many crashes a trial has at most.
const MOST_CRASHES: u64 = 60;

// How many calls of a folder come before a crash at most.
const MOST_CALLS: u64 = 40;

// A query and its feed, and what has to be in the folder at the end.
#[derive(Clone, Copy)]
pub(crate) struct Trial<'a> {
    pub(crate) alloc: Global,
    pub(crate) query: &'a [u8],
    pub(crate) feed: &'a [u8],
    pub(crate) expected: &'a [u8],
}

impl<'a> Trial<'a> {
    // Serves the feed until it is done, and returns how many crashes there were.
    pub(crate) fn run(self, random: &mut SplitMix64) -> Result<u64, Fail> {
        let calls = below(random, MOST_CALLS);
        let mut folder = MemFolder::new(self.alloc, b"", b"", calls)?;
        for crashes in 0..MOST_CRASHES {
            let left = self.serve(folder, random)?;
            if left.is_done {
                self.compare(&left.folder)?;
                return Ok(crashes);
            }
            folder = crashed(self.alloc, &left.folder, random)?;
        }
        let left = self.serve(healed(self.alloc, &folder)?, random)?;
        if !left.is_done {
            return Err(Fail::from("the feed isn't served to its end"));
        }
        self.compare(&left.folder)?;
        Ok(MOST_CRASHES)
    }

    // Serves the feed into a folder, in pieces.
    fn serve(self, folder: MemFolder, random: &mut SplitMix64) -> Result<Left, Fail>
        requires { Only (mem_seen folder) (mem_may_leave folder) }
    {
        let words = words(below(random, 4));
        let mut port = self.pieces(random)?;
        left_of(call(self.alloc, words, self.query, folder, &mut port)?)
    }

    // A port that gives the feed in pieces.
    fn pieces(self, random: &mut SplitMix64) -> Result<MemPort, Fail> {
        let mut port = MemPort::new(self.alloc, 0, self.feed.len() + 2)?;
        let mut rest = self.feed;
        for _ in 0..self.feed.len() {
            let count = below(random, 40).saturating_add(1) as usize;
            let (piece, later) = rest.split_at(count.min(rest.len()));
            port.lend(piece)?;
            rest = later;
        }
        port.lend(rest)?;
        Ok(port)
    }

    // Compares the output in a folder with what is expected.
    fn compare(self, folder: &MemFolder) -> Result<(), Fail> {
        if folder.output() == self.expected {
            return Ok(());
        }
        Err(Fail::from("the output isn't that of one call"))
    }
}

// What a call left of a folder, and whether it served the feed to its end.
#[derive(Drop)]
struct Left {
    folder: MemFolder,
    is_done: bool,
}

fn left_of(lived: Lived<MemFolder>) -> Result<Left, Fail> {
    let folder = lived.folder.ok_or("no folder")?;
    match lived.status {
        0 => Ok(Left {
            folder,
            is_done: true,
        }),
        6 => Ok(Left {
            folder,
            is_done: false,
        }),
        _ => Err(Fail::from("the folder is rejected")),
    }
}

// The arguments of a call.
fn words(choice: u64) -> &'static str {
    match choice {
        0 => "q\n--folder\nf",
        1 => "q\n--folder\nf\n--every\n3",
        2 => "q\n--plain\n--folder\nf\n--every\n0",
        _ => "q\n--folder\nf\n--every\n1000",
    }
}

// What a crash leaves of a folder. After some calls there is another one.
fn crashed(alloc: Global, folder: &MemFolder, random: &mut SplitMix64) -> Result<MemFolder, Fail>
    ensures { IfOk result (λ next. Only (mem_seen next) (mem_may_leave next)) }
{
    let tear = match below(random, 4) {
        0 => Tear::Nothing,
        1 => Tear::Half,
        2 => Tear::Zeros,
        _ => Tear::Whole,
    };
    let is_replaced = below(random, 2) == 0;
    let calls = below(random, MOST_CALLS);
    Ok(folder.crash(alloc, tear, is_replaced, calls)?)
}

// The same folder, of which no call fails any more.
fn healed(alloc: Global, folder: &MemFolder) -> Result<MemFolder, Fail>
    ensures { IfOk result (λ next. Only (mem_seen next) (mem_may_leave next)) }
{
    Ok(MemFolder::new(alloc, folder.output(), folder.state(), u64::MAX)?)
}

// A random number below another one that isn't 0.
fn below(random: &mut SplitMix64, count: u64) -> u64 {
    random.next_u64() % count.max(1)
}
