// The horizons of buffers, each as a tick, or none if it is known for ever.
ghost use Rattle.std.specs.Prelude.{◌≡◌, ◌≤ℤ◌, ◌↔◌, ℕ, OnOk, IsTrue, map, neg_ℤ};
ghost use Rattle.std.specs.List.{AllByRecursion};
ghost use Rattle.tilt_base.specs.Offset.{IsOffset};
ghost use Rattle.tilt_base.specs.declared.limits.TheConstants.{T};
ghost use Rattle.tilt_engine.specs.CodeHorizon.{IsNearTimeOrNever, IsTimeOrNever, block_horizon, horizon_by, instr_horizon};
ghost use Rattle.tilt_engine.specs.CodeHorizon.{loop_horizon, with_loop_horizons};
ghost use Rattle.tilt_feed.specs.Horizon.{IsKnownAt, earlier, earlier_by, horizon_of, input_horizon};
ghost use Rattle.tilt_turn.specs.Ready.{IsReadable, IsReady};

use std::alloc::AllocError as OutOfMemory;
use tilt_base::T;
use tilt_code::{Instr, Loop};
use tilt_feed::Edge;

// Up to where an input is known.
pub(crate) fn input_horizon(finished: bool, edge: Edge) -> Option<i64>
    requires low { neg_ℤ T ≤ℤ edge.watermark }
    requires high { edge.watermark ≤ℤ T }
    ensures value { horizon_by result ≡ input_horizon finished edge }
    ensures time { IsTimeOrNever result }
{
    if finished || edge.watermark == T {
        None
    } else {
        Some(edge.watermark)
    }
}

// Adds the horizons of loops to those of the buffers before them.
pub(crate) fn add_loops(horizons: &mut Vec<Option<i64>>, loops: &[Loop]) -> Result<(), OutOfMemory>
    requires loops { (buffers : ℕ) × AllByRecursion (IsReady buffers) loops.now }
    requires times { AllByRecursion IsTimeOrNever horizons.old.items }
    ensures value { OnOk result (map horizon_by horizons.new.items
        ≡ with_loop_horizons (map horizon_by horizons.old.items) loops.now) }
    ensures times { OnOk result (AllByRecursion IsTimeOrNever horizons.new.items) }
{
    for each in loops {
        let horizon = loop_horizon(horizons, each);
        horizons.push(horizon)?;
    }
    Ok(())
}

// Up to where a loop is known, over the buffers before it.
fn loop_horizon(horizons: &[Option<i64>], each: &Loop) -> Option<i64>
    requires ready { (buffers : ℕ) × IsReady buffers each.now }
    requires times { AllByRecursion IsTimeOrNever horizons.now }
    ensures value { horizon_by result ≡ loop_horizon (map horizon_by horizons.now) each.now }
    ensures time { IsTimeOrNever result }
{
    let body = block_horizon(horizons, &each.body)?;
    let point = each.grid.floor(body);
    if each.hi <= point {
        None
    } else {
        Some(each.lo.max(point))
    }
}

// Up to where a block is known.
fn block_horizon(horizons: &[Option<i64>], block: &[Instr]) -> Option<i64>
    requires readable { (buffers maps : ℕ) × AllByRecursion (IsReadable buffers maps) block.now }
    requires times { AllByRecursion IsTimeOrNever horizons.now }
    ensures value { horizon_by result ≡ block_horizon (map horizon_by horizons.now) block.now }
    ensures time { IsNearTimeOrNever result }
{
    let mut horizon = None;
    for number in (0..block.len()).rev() {
        horizon = earlier(instr_horizon(horizons, block[number]), horizon);
    }
    horizon
}

// Up to where what an instruction reads is known.
fn instr_horizon(horizons: &[Option<i64>], instr: Instr) -> Option<i64>
    requires readable { (buffers maps : ℕ) × IsReadable buffers maps instr }
    requires times { AllByRecursion IsTimeOrNever horizons.now }
    ensures value { horizon_by result ≡ instr_horizon (map horizon_by horizons.now) instr }
    ensures time { IsNearTimeOrNever result }
{
    match instr {
        Instr::Port { buffer, offset } => earlier_by(horizon_of(horizons, buffer), offset),
        Instr::Win { buffer, to, .. } => earlier_by(horizon_of(horizons, buffer), to),
        _ => None,
    }
}

// That of a buffer; for ever if there is no such buffer.
fn horizon_of(horizons: &[Option<i64>], buffer: u32) -> Option<i64>
    requires times { AllByRecursion IsTimeOrNever horizons.now }
    ensures value { horizon_by result ≡ horizon_of (map horizon_by horizons.now) buffer }
    ensures time { IsTimeOrNever result }
{
    match horizons.get(buffer as usize) {
        Some(horizon) => *horizon,
        None => None,
    }
}

// The earlier of two.
fn earlier(first: Option<i64>, second: Option<i64>) -> Option<i64>
    requires first { IsNearTimeOrNever first }
    requires second { IsNearTimeOrNever second }
    ensures value { horizon_by result ≡ earlier (horizon_by first) (horizon_by second) }
    ensures time { IsNearTimeOrNever result }
{
    match (first, second) {
        (Some(first), Some(second)) => Some(first.min(second)),
        (Some(first), None) => Some(first),
        (None, second) => second,
    }
}

// Earlier by an offset.
fn earlier_by(horizon: Option<i64>, offset: i64) -> Option<i64>
    requires time { IsTimeOrNever horizon }
    requires near { IsOffset offset }
    ensures value { horizon_by result ≡ earlier_by (horizon_by horizon) offset }
    ensures time { IsNearTimeOrNever result }
{
    Some(horizon? - offset)
}

// Whether a tick is known.
#[inline]
pub(crate) fn is_known(horizon: Option<i64>, tick: i64) -> bool
    ensures { IsTrue result ↔ IsKnownAt (horizon_by horizon) tick }
{
    match horizon {
        Some(last) => tick <= last,
        None => true,
    }
}
