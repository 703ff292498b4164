// What is kept of a loop from one turn to the next.
ghost use Rattle.std.specs.Prelude.{◌≡◌, ℕ, ℤ, pos, List, ◌+ℤ◌, ◌<ℤ◌, ◌≤ℤ◌, neg_ℤ, length, map, IfOk, IfSome, OnOk};
ghost use Rattle.std.specs.List.{AllByRecursion};
ghost use Rattle.tilt_base.specs.Grid.{ceil};
ghost use Rattle.tilt_base.specs.declared.limits.TheConstants.{WIDE};
ghost use Rattle.tilt_code.specs.Body.{body_of, leaf_of};
ghost use Rattle.tilt_code.specs.Code.{LoopParts};
ghost use Rattle.tilt_code.specs.Turn.{turn};
ghost use Rattle.tilt_stream.specs.Marks.{NamesNextMark};
ghost use Rattle.tilt_stream.specs.Snap.{Snapshot};
ghost use Rattle.tilt_stream.specs.Stream.{Stream, stream_of};
ghost use Rattle.tilt_turn.specs.Held.{IsFit};
ghost use Rattle.tilt_turn.specs.Picked.{AreRead, computes, picked};
ghost use Rattle.tilt_turn.specs.Ready.{IsBodyTick, IsKept, IsMarkTick, IsReady, NameEarlier};
ghost use Rattle.tilt_turn.specs.Same.{IsAlikeFor};
ghost use Rattle.tilt_turn.specs.Sight.{Sees};
ghost use Rattle.tilt_turn.specs.Stepped.{MayStep, StepsTo};

use crate::buffers::Buffers;
use crate::computed::{Listed, compute, computed_of};
use crate::marks::lesser;
use crate::placed::{Placed, leaves_of};
use crate::reading::Reading;
use crate::register::{constants, last};
use std::alloc::{AllocError as OutOfMemory, Global};
use tilt_base::Cell;
use tilt_code::Loop;
use tilt_stream::{Seen, Snap};

/// What is kept of a loop from one turn to the next. It has the position of each port, what each window holds, the next mark of both, and a
/// register for each instruction. Constants are in their registers all the time, and what a port or a window reads is in its register up to
/// its next mark. The state takes memory as its windows grow, and for the registers of its maps.
#[derive(Drop)]
pub struct LoopState {
    leaves: Vec<Placed>,
    computed: Vec<Listed>,
    registers: Vec<Cell>,
    arguments: Vec<Cell>,
}

impl LoopState {
    /// The state of a loop before its first turn. It is fit for any buffers over which the loop may be run.
    pub fn new(alloc: Global, each: &Loop) -> Result<LoopState, OutOfMemory>
        ensures { IfOk result (λ state. (lists : List (List Snapshot)) (point : ℤ) → IsReady (length lists) each.now
            → neg_ℤ WIDE ≤ℤ point → IsFit lists each.now point state) }
    {
        let registers = constants(alloc, &each.body)?;
        let leaves = leaves_of(alloc, &each.body)?;
        let computed = computed_of(alloc, &each.body)?;
        Ok(LoopState {
            leaves,
            computed,
            registers,
            arguments: Vec::new(alloc),
        })
    }

    /// The snapshot that begins at a start, over the buffers before the loop's own. The state must be at a grid point that isn't above the
    /// grid point of this turn, and is then at it. Each buffer must keep the snapshots from the first tick on that the loop reads of it at
    /// the grid point of this turn; it needn't keep those before. `OutOfMemory` is returned if an allocation fails, and for no other
    /// reason; the state is of no use then.
    // Inlined, so that what a turn takes and gives stays in registers of the processor.
    #[inline(always)]
    pub fn turn<S: Buffers>(
        &mut self,
        buffers: &S,
        each: &Loop,
        start: i64,
    ) -> Result<Snap, OutOfMemory>
        requires ready { IsReady (length (S.lists buffers.now)) each.now }
        requires low { each.now.lo ≤ℤ start }
        requires high { start <ℤ each.now.hi }
        requires kept { AllByRecursion (IsKept (S.lists buffers.now) (S.forgotten buffers.now)
            (ceil each.now.grid (start +ℤ pos 1))) each.now.body }
        requires fit { (before : ℤ) × (before ≤ℤ ceil each.now.grid (start +ℤ pos 1))
            × IsFit (S.lists buffers.now) each.now before self.old }
        ensures snap { IfOk result (λ snap. snap
            ≡ turn (body_of (map stream_of (S.lists buffers.now)) each.now) each.now.grid each.now.hi start) }
        ensures fit { OnOk result (IsFit (S.lists buffers.now) each.now (ceil each.now.grid (start +ℤ pos 1)) self.new) }
    {
        let point = point_of(each, start);
        let reading = Reading {
            buffers,
            each,
            point,
        };
        let seen = body_seen(
            &mut self.leaves,
            &self.computed,
            &reading,
            &mut self.registers,
            &mut self.arguments,
        )?;
        let end = turn_end(each, seen.next);
        Ok(Snap {
            start,
            end,
            value: seen.cell,
        })
    }

    /// Makes the state fit for lists that are the same up to the last tick that the loop reads at a grid point. Each port and each window
    /// is looked at again at the next turn, whatever next mark was seen before. It takes no memory, and reads no cell of a window again.
    pub fn look_again(&mut self)
        ensures { (a b : List (List Snapshot)) (l : LoopParts) (point : ℤ) → neg_ℤ WIDE ≤ℤ point → IsFit a l point self.old
            → AllByRecursion (IsAlikeFor a b point) l.body → IsFit b l point self.new }
    {
        for leaf in self.leaves.iter_mut() {
            leaf.look_again();
        }
    }
}

// The grid point at which the snapshot that begins at a start has its value.
#[inline]
fn point_of(each: &Loop, start: i64) -> i64
    requires ready { (buffers : ℕ) × IsReady buffers each.now }
    requires low { each.now.lo ≤ℤ start }
    requires high { start <ℤ each.now.hi }
    ensures value { result ≡ ceil each.now.grid (start +ℤ pos 1) }
    ensures near { IsBodyTick result }
{
    each.grid.ceil(start + 1)
}

// The result of a body at the grid point of a reading, and its next mark. First the registers of the leaves get their cells there, and then
// what is computed by them is computed.
#[inline(always)]
fn body_seen<S: Buffers>(
    leaves: &mut [Placed],
    computed: &[Listed],
    reading: &Reading<'_, '_, S>,
    registers: &mut [Cell],
    arguments: &mut Vec<Cell>,
) -> Result<Seen, OutOfMemory>
    requires may { MayStep (S.lists reading.now.buffers.now) (S.forgotten reading.now.buffers.now) reading.now.each.now reading.now.point
        leaves.old registers.old }
    requires computed { computed.now ≡ picked computes 0 reading.now.each.now.body }
    requires names { NameEarlier 0 reading.now.each.now.body }
    ensures stepped { OnOk result
        (StepsTo (S.lists reading.now.buffers.now) reading.now.each.now reading.now.point leaves.old leaves.new registers.new) }
    ensures seen { IfOk result
        (Sees (body_of (map stream_of (S.lists reading.now.buffers.now)) reading.now.each.now) reading.now.point) }
{
    let next = leaves_next(leaves, reading, registers, arguments)?;
    compute(computed, registers);
    Ok(Seen {
        cell: last(registers),
        next,
    })
}

// Makes the registers of the leaves those of the grid point of a reading, and gives the next mark of the body, which is the smallest of
// theirs.
#[inline(always)]
fn leaves_next<S: Buffers>(
    leaves: &mut [Placed],
    reading: &Reading<'_, '_, S>,
    registers: &mut [Cell],
    arguments: &mut Vec<Cell>,
) -> Result<Option<i64>, OutOfMemory>
    requires may { MayStep (S.lists reading.now.buffers.now) (S.forgotten reading.now.buffers.now) reading.now.each.now reading.now.point
        leaves.old registers.old }
    ensures stepped { OnOk result
        (StepsTo (S.lists reading.now.buffers.now) reading.now.each.now reading.now.point leaves.old leaves.new registers.new) }
    ensures read { OnOk result (AreRead
        (λ leaf. (leaf_of (map stream_of (S.lists reading.now.buffers.now)) reading.now.each.now.maps leaf).cell reading.now.point)
        reading.now.each.now.body registers.new) }
    ensures next { IfOk result
        (NamesNextMark (body_of (map stream_of (S.lists reading.now.buffers.now)) reading.now.each.now) reading.now.point) }
    ensures bounds { IfOk result (λ next. IfSome next IsMarkTick) }
{
    let mut next = None;
    for number in 0..leaves.len() {
        let above = leaves[number].step(reading, registers, arguments)?;
        next = lesser(next, above);
    }
    Ok(next)
}

// Where a snapshot ends whose body next has a mark there.
#[inline]
fn turn_end(each: &Loop, next: Option<i64>) -> i64
    requires ready { (buffers : ℕ) × IsReady buffers each.now }
    requires bounds { IfSome next IsMarkTick }
    ensures { (body : Stream) (start : ℤ) → start <ℤ each.now.hi
        → NamesNextMark body (ceil each.now.grid (start +ℤ pos 1)) next
        → result ≡ (turn body each.now.grid each.now.hi start).end }
{
    match next {
        Some(next) => each.hi.min(each.grid.floor(next - 1)),
        None => each.hi,
    }
}
