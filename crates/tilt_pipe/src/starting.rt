// The loops of a pipe before their first turns.
ghost use Rattle.std.specs.Prelude.{◌≡◌, ◌<◌, ◌≤◌, ℕ, suc, length, map, replicate, slice_get, None, Some, IfOk, OnOk};
ghost use Rattle.tilt_code.specs.References.{IsCode};
ghost use Rattle.tilt_pipe.specs.Chain.{ArePoints, IsChain};
ghost use Rattle.tilt_pipe.specs.Gathered.{AreEach, AreEmpty, HasAdded, HasBegun, HaveBegun};
ghost use Rattle.tilt_pipe.specs.Made.{Work};
ghost use Rattle.tilt_pipe.specs.Positions.{starts_of, works_in};
ghost use Rattle.tilt_pipe.specs.Reads.{body_reads};
ghost use Rattle.tilt_pipe.specs.Sources.{AreSources};

use crate::chain::{Chain, LoopTurns, Reader, next_point};
use crate::input::Input;
use crate::rings::Rings;
use crate::sources::{Source, sources_of};
use std::alloc::{AllocError as OutOfMemory, Global};
use tilt_code::Code;
use tilt_turn::LoopState;

impl Chain {
    // The loops of a code before their first turns.
    pub(crate) fn new(alloc: Global, code: Code, inputs: Vec<Input>) -> Result<Chain, OutOfMemory>
        requires { length inputs.items ≡ length code.inputs }
        ensures is { IfOk result (λ c. IsChain c) }
        ensures code { IfOk result (λ c. c.rings.code ≡ code) }
        ensures inputs { IfOk result (λ c. c.rings.inputs ≡ inputs.items) }
        ensures valid { IfOk result (λ c. IsCode c.rings.code) }
        ensures starts { IfOk result (λ c. starts_of c.rings.rings ≡ map (λ l. l.lo) code.loops) }
    {
        let rings = Rings::new(alloc, code, inputs)?;
        let count = rings.loops().len();
        let mut numbers = vec![in alloc; 0; count]?;
        let holders = no_holders(alloc, count)?;
        let held = empty_lists(alloc, count)?;
        let mut turns = first_turns(alloc, &rings)?;
        find_sources(alloc, &rings, &mut turns, &mut numbers)?;
        let points = first_points(alloc, &rings, &turns)?;
        Ok(Chain {
            rings,
            turns,
            points,
            holders,
            held,
        })
    }
}

// For this number of rings, no reader that holds one is known.
fn no_holders(alloc: Global, count: usize) -> Result<Vec<Option<Reader>>, OutOfMemory>
    ensures { IfOk result (λ holders. holders.items ≡ replicate count None) }
{
    vec![in alloc; None; count]
}

// This number of lists of rings, which are empty.
fn empty_lists(alloc: Global, count: usize) -> Result<Vec<Vec<usize>>, OutOfMemory>
    ensures { IfOk result (AreEmpty count) }
{
    let mut lists = Vec::new(alloc);
    for _ in 0..count {
        lists.push(Vec::new(alloc))?;
    }
    Ok(lists)
}

// What is kept for the turns of loops before the first ones, as if no loop read another.
fn first_turns(alloc: Global, rings: &Rings) -> Result<Vec<LoopTurns>, OutOfMemory>
    ensures { IfOk result (λ turns. HaveBegun rings.now (length rings.now.code.loops) turns.items) }
{
    let mut turns = Vec::new(alloc);
    for place in 0..rings.loops().len() {
        turns.push(new_turns(alloc, rings, place)?)?;
    }
    Ok(turns)
}

// The same of one loop.
fn new_turns(alloc: Global, rings: &Rings, place: usize) -> Result<LoopTurns, OutOfMemory>
    requires { place < length rings.now.code.loops }
    ensures { IfOk result (λ turns. (w : Work) → slice_get (works_in rings.now) place ≡ Some w
        → HasBegun rings.now (length rings.now.code.loops) place w turns) }
{
    let each = &rings.loops()[place];
    Ok(LoopTurns {
        state: LoopState::new(alloc, each)?,
        sources: Vec::new(alloc),
        readers: Vec::new(alloc),
        passed: 0,
    })
}

// Finds the earlier loops that each loop reads, from the last loop down. So each loop is known to be used or not before it is added to the
// readers of others. The numbers are for `sources_of`.
fn find_sources(
    alloc: Global,
    rings: &Rings,
    turns: &mut [LoopTurns],
    numbers: &mut [usize],
) -> Result<(), OutOfMemory>
    requires begun { HaveBegun rings.now (length rings.now.code.loops) turns.old }
    requires numbers { length rings.now.code.loops ≤ length numbers.old }
    ensures { OnOk result (HaveBegun rings.now 0 turns.new) }
{
    for place in (0..rings.loops().len()).rev() {
        find_own(alloc, rings, turns, place, numbers)?;
    }
    Ok(())
}

// The same of one loop.
fn find_own(
    alloc: Global,
    rings: &Rings,
    turns: &mut [LoopTurns],
    place: usize,
    numbers: &mut [usize],
) -> Result<(), OutOfMemory>
    requires there { place < length rings.now.code.loops }
    requires begun { HaveBegun rings.now (suc place) turns.old }
    requires numbers { length rings.now.code.loops ≤ length numbers.old }
    ensures { OnOk result (HaveBegun rings.now place turns.new) }
{
    let sources = sources_of(alloc, rings, place, numbers)?;
    add_readers(rings, turns, place, &sources)?;
    turns[place].sources = sources;
    Ok(())
}

// Adds a loop to the readers of the loops that it reads, if it is used.
fn add_readers(
    rings: &Rings,
    turns: &mut [LoopTurns],
    place: usize,
    sources: &[Source],
) -> Result<(), OutOfMemory>
    requires there { place < length rings.now.code.loops }
    requires begun { HaveBegun rings.now (suc place) turns.old }
    requires reads { (w : Work) → slice_get (works_in rings.now) place ≡ Some w
        → AreSources (length rings.now.inputs) (body_reads w.loop.body) sources.now }
    ensures { OnOk result (AreEach rings.now (length rings.now.code.loops)
        (HasAdded rings.now place sources.now (length sources.now)) turns.new) }
{
    // What rings keep is known from here on.
    let _ = rings.loops();
    if !is_used(rings, place, &turns[place]) {
        return Ok(());
    }
    for source in sources {
        turns[source.place].readers.push(reader_of(place, *source))?;
    }
    Ok(())
}

// The reader that a source of the loop at a place makes.
fn reader_of(place: usize, source: Source) -> Reader
    ensures { result ≡ record { place = place; first = source.first } }
{
    Reader {
        place,
        first: source.first,
    }
}

// Whether a loop is used: it is the last one, or has a reader. All later loops have said what they read.
fn is_used(rings: &Rings, place: usize, turns: &LoopTurns) -> bool
    requires there { place < length rings.now.code.loops }
    requires begun { (from : ℕ) × (from ≤ suc place)
        × ((w : Work) → slice_get (works_in rings.now) place ≡ Some w → HasBegun rings.now from place w turns.now) }
    ensures { (w : Work) → slice_get (works_in rings.now) place ≡ Some w → w.used ≡ result }
{
    rings.loops().len() == place + 1 || !turns.readers.is_empty()
}

// The grid points of the first turns of the loops that are used and start before the ends of their stretches.
fn first_points(
    alloc: Global,
    rings: &Rings,
    turns: &[LoopTurns],
) -> Result<Vec<Option<i64>>, OutOfMemory>
    requires { HaveBegun rings.now 0 turns.now }
    ensures { IfOk result (λ points. ArePoints rings.now points.items) }
{
    let mut points = Vec::new(alloc);
    for place in 0..rings.loops().len() {
        let used = is_used(rings, place, &turns[place]);
        points.push(next_point(rings, place, used))?;
    }
    Ok(points)
}
