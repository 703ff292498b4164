// What the next turns of loops read of each buffer.
ghost use Rattle.std.specs.Prelude.{◌≡◌, ◌<◌, ◌+◌, ◌≤ℤ◌, ◌<ℤ◌, neg_ℤ, ℕ, None, Some, IfOk};
ghost use Rattle.std.specs.Prelude.{get_or, length, replicate, slice_get, slice_set};
ghost use Rattle.std.specs.List.{AllByRecursion};
ghost use Rattle.tilt_base.specs.declared.limits.TheConstants.{WIDE};
ghost use Rattle.tilt_code.specs.Code.{LoopParts};
ghost use Rattle.tilt_engine.specs.Stock.{MadeParts};
ghost use Rattle.tilt_engine.specs.Wanted.{IsUnread, next_read, wanted};
ghost use Rattle.tilt_pipe.specs.Reads.{body_reads, earlier, first_tick, reads_of, turn_point};
ghost use Rattle.tilt_stream.specs.Snap.{InOrder};
ghost use Rattle.tilt_turn.specs.Ready.{IsBodyTick, IsReadable, IsReady};

use crate::made::Made;
use std::alloc::{AllocError as OutOfMemory, Global};
use tilt_code::{Code, Instr, Loop};
use tilt_stream::Snap;

// The first tick of each buffer that a next turn reads, or none if no next turn reads it.
pub(crate) fn first_reads(
    alloc: Global,
    code: &Code,
    loops: &[Made],
) -> Result<Vec<Option<i64>>, OutOfMemory>
    requires many { length loops.now ≡ length code.now.loops }
    requires low { (k : ℕ) (l : LoopParts) (m : MadeParts) → slice_get code.now.loops k ≡ Some l → slice_get loops.now k ≡ Some m
        → l.lo ≤ℤ m.settled }
    requires high { (k : ℕ) (l : LoopParts) (m : MadeParts) → slice_get code.now.loops k ≡ Some l → slice_get loops.now k ≡ Some m
        → m.hi ≡ l.hi }
    ensures count { IfOk result (λ firsts. length firsts.items ≡ length code.now.inputs + length code.now.loops) }
    ensures firsts { IfOk result (λ firsts. (buffer : ℕ) → get_or firsts.items buffer None ≡ wanted buffer code.now.loops loops.now) }
{
    let mut firsts = allocate_firsts(alloc, code.inputs().len() + code.loops().len())?;
    for place in 0..code.loops().len() {
        add_loop(&mut firsts, &code.loops()[place], &loops[place]);
    }
    Ok(firsts)
}

// One entry for each buffer, of which nothing is read yet.
fn allocate_firsts(alloc: Global, count: usize) -> Result<Vec<Option<i64>>, OutOfMemory>
    ensures { IfOk result (λ firsts. firsts.items ≡ replicate count None) }
{
    vec![in alloc; None; count]
}

// Adds what the next turn of a loop reads, if it has one.
fn add_loop(firsts: &mut [Option<i64>], each: &Loop, made: &Made)
    requires ready { IsReady (length firsts.old) each.now }
    requires low { each.now.lo ≤ℤ made.now.settled }
    requires high { made.now.hi ≡ each.now.hi }
    ensures count { length firsts.new ≡ length firsts.old }
    ensures firsts { (buffer : ℕ) → get_or firsts.new buffer None
        ≡ earlier (get_or firsts.old buffer None) (next_read buffer each.now made.now) }
{
    if made.settled() < made.hi() {
        add_body(firsts, &each.body, find_point(each, made.settled()));
    }
}

// The grid point of the turn of a loop that starts at a tick.
fn find_point(each: &Loop, start: i64) -> i64
    requires ready { (buffers : ℕ) × IsReady buffers each.now }
    requires low { each.now.lo ≤ℤ start }
    requires high { start <ℤ each.now.hi }
    ensures value { result ≡ turn_point each.now start }
    ensures near { IsBodyTick result }
{
    each.grid.ceil(start + 1)
}

// Adds what a body reads at a grid point.
fn add_body(firsts: &mut [Option<i64>], body: &[Instr], point: i64)
    requires readable { (maps : ℕ) × AllByRecursion (IsReadable (length firsts.old) maps) body.now }
    requires near { IsBodyTick point }
    ensures count { length firsts.new ≡ length firsts.old }
    ensures firsts { (buffer : ℕ) → get_or firsts.new buffer None
        ≡ earlier (get_or firsts.old buffer None) (first_tick buffer point (body_reads body.now)) }
{
    for instr in body {
        add_instr(firsts, *instr, point);
    }
}

// Adds what an instruction reads at a grid point, if it reads a buffer.
fn add_instr(firsts: &mut [Option<i64>], instr: Instr, point: i64)
    requires readable { (maps : ℕ) × IsReadable (length firsts.old) maps instr }
    requires near { IsBodyTick point }
    ensures count { length firsts.new ≡ length firsts.old }
    ensures firsts { (buffer : ℕ) → get_or firsts.new buffer None
        ≡ earlier (get_or firsts.old buffer None) (first_tick buffer point (reads_of instr)) }
{
    match instr {
        Instr::Port { buffer, offset } => add_tick(firsts, buffer, point + offset),
        Instr::Win { buffer, from, .. } => add_tick(firsts, buffer, point + from + 1),
        _ => {}
    }
}

// Adds a tick of a buffer: the earlier one stays.
fn add_tick(firsts: &mut [Option<i64>], buffer: u32, tick: i64)
    requires { buffer < length firsts.old }
    ensures { firsts.new ≡ slice_set firsts.old buffer (earlier (get_or firsts.old buffer None) (Some tick)) }
{
    let buffer = buffer as usize;
    firsts[buffer] = match firsts[buffer] {
        Some(before) => Some(before.min(tick)),
        None => Some(tick),
    };
}

// How many of these snapshots no turn reads, given the first tick that is read, if any: those that end below it, or all.
pub(crate) fn count_unread(list: &[Snap], first: Option<i64>) -> usize
    requires { InOrder (neg_ℤ WIDE) WIDE list.now }
    ensures { IsUnread first list.now result }
{
    match first {
        Some(tick) => list.partition_point(|snap| snap.end < tick),
        None => list.len(),
    }
}
