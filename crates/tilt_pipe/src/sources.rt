// The earlier loops that a loop reads.
ghost use Rattle.std.specs.Prelude.{◌≡◌, ◌<◌, ◌≤◌, ◌+◌, ℕ, ◌∷◌, ◌++◌, true, List, length, slice_get, Some, IfOk, OnOk};
ghost use Rattle.std.specs.Int.{int_max, int_min};
ghost use Rattle.std.specs.List.{AllByRecursion};
ghost use Rattle.tilt_pipe.specs.Made.{Work};
ghost use Rattle.tilt_pipe.specs.Positions.{works_in};
ghost use Rattle.tilt_pipe.specs.Reads.{body_reads, reads_of};
ghost use Rattle.tilt_pipe.specs.Sources.{AreSources};
ghost use Rattle.tilt_turn.specs.Ready.{IsReadable};
ghost use Rattle.tilt_pipe.specs.declared.read.Read.{Read};

use crate::read::{Read, read_of};
use crate::rings::Rings;
use std::alloc::{AllocError as OutOfMemory, Global};
use tilt_code::Instr;

// An earlier loop whose buffer a loop reads: its number among the loops, and the first and the last tick that are read there, seen
// from the grid point.
#[derive(Clone, Copy)]
pub(crate) struct Source {
    pub(crate) place: usize,
    pub(crate) first: i64,
    pub(crate) last: i64,
}

// The earlier loops that a loop reads, each once. The numbers, one for each loop, say where in the list that loop is, if it is there. Any
// number is right, since each one is tested before it is used.
pub(crate) fn sources_of(
    alloc: Global,
    rings: &Rings,
    place: usize,
    numbers: &mut [usize],
) -> Result<Vec<Source>, OutOfMemory>
    requires there { place < length rings.now.code.loops }
    requires numbers { length rings.now.code.loops ≤ length numbers.old }
    ensures { (w : Work) → slice_get (works_in rings.now) place ≡ Some w
        → IfOk result (λ sources. AreSources (length rings.now.inputs) (body_reads w.loop.body) sources.items) }
{
    let each = &rings.loops()[place];
    body_sources(alloc, rings, &each.body, numbers)
}

// The same of a body; what its last instruction reads comes first.
fn body_sources(
    alloc: Global,
    rings: &Rings,
    body: &[Instr],
    numbers: &mut [usize],
) -> Result<Vec<Source>, OutOfMemory>
    requires { (buffers maps : ℕ) × AllByRecursion (IsReadable buffers maps) body.now
        × (buffers ≤ length rings.now.inputs + length numbers.old) }
    ensures { IfOk result (λ sources. AreSources (length rings.now.inputs) (body_reads body.now) sources.items) }
{
    let mut sources = Vec::new(alloc);
    for number in (0..body.len()).rev() {
        add_instr(&mut sources, rings, body[number], numbers)?;
    }
    Ok(sources)
}

// Adds what an instruction reads to the sources of a loop.
fn add_instr(
    sources: &mut Vec<Source>,
    rings: &Rings,
    instr: Instr,
    numbers: &mut [usize],
) -> Result<(), OutOfMemory>
    requires { (buffers maps : ℕ) × IsReadable buffers maps instr × (buffers ≤ length rings.now.inputs + length numbers.old) }
    ensures { (reads : List Read) → AreSources (length rings.now.inputs) reads sources.old.items
        → OnOk result (AreSources (length rings.now.inputs) (reads_of instr ++ reads) sources.new.items) }
{
    let Some(read) = read_of(instr) else {
        return Ok(());
    };
    let Some(place) = rings.source(read.buffer) else {
        return Ok(());
    };
    add_read(sources, place, read, numbers)
}

// Adds a read of the buffer of a loop.
fn add_read(
    sources: &mut Vec<Source>,
    place: usize,
    read: Read,
    numbers: &mut [usize],
) -> Result<(), OutOfMemory>
    requires { place < length numbers.old }
    ensures { (inputs : ℕ) (reads : List Read) → read.buffer ≡ inputs + place → AreSources inputs reads sources.old.items
        → OnOk result (AreSources inputs (read ∷ reads) sources.new.items) }
{
    let number = numbers[place];
    if is_source(sources, number, place) {
        sources[number] = with_read(sources[number], read);
        return Ok(());
    }
    numbers[place] = sources.len();
    sources.push(source_of(place, read))?;
    Ok(())
}

// Whether there is a source with a number, and it is the loop at a place.
fn is_source(sources: &[Source], number: usize, place: usize) -> bool
    ensures { result ≡ true → (s : Source) × (slice_get sources.now number ≡ Some s) × (s.place ≡ place) }
{
    number < sources.len() && sources[number].place == place
}

// The source of one read.
fn source_of(place: usize, read: Read) -> Source
    ensures { result ≡ record { place = place; first = read.first; last = read.last } }
{
    Source {
        place,
        first: read.first,
        last: read.last,
    }
}

// A source with one read more of the same loop.
fn with_read(source: Source, read: Read) -> Source
    ensures { result ≡ record { place = source.place; first = int_min source.first read.first; last = int_max source.last read.last } }
{
    Source {
        place: source.place,
        first: source.first.min(read.first),
        last: source.last.max(read.last),
    }
}
