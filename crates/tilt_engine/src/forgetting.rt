// What no next turn reads is let go.
ghost use Rattle.std.specs.Prelude.{◌≡◌, ◌<◌, ◌≤◌, ◌+◌, ◌-◌, min, ℕ, List, None, Some, get_or, length, slice_get, IfOk, OnOk, []};
ghost use Rattle.tilt_engine.specs.Forgetting.{HasForgotten, each_later, kept_lists, later_inlet, later_made};
ghost use Rattle.tilt_engine.specs.Standing.{IsStockOf};
ghost use Rattle.tilt_engine.specs.Stock.{InletParts, MadeParts};
ghost use Rattle.tilt_engine.specs.Wanted.{IsUnread};
ghost use Rattle.tilt_feed.specs.Horizon.{Horizon};
ghost use Rattle.tilt_pipe.specs.Rings.{let_go};
ghost use Rattle.tilt_stream.specs.Snap.{Snapshot};

use crate::inlet::Inlet;
use crate::made::Made;
use crate::starting::new_states;
use crate::stock::Stock;
use crate::wanted::first_reads;
use std::alloc::{AllocError as OutOfMemory, Global};
use tilt_code::Code;
use tilt_turn::LoopState;

// Lets go what no next turn reads of each buffer, and of the last loop what was given, as many snapshots as that. All states begin
// again. How many snapshots of the last loop have gone is returned.
pub(crate) fn forget(
    alloc: Global,
    code: &Code,
    stock: &mut Stock,
    states: &mut Vec<LoopState>,
    given: usize,
) -> Result<usize, OutOfMemory>
    requires loops { (rows gone : List (List Snapshot)) × (hs : List Horizon)
        × IsStockOf code.now rows gone hs stock.old.inputs.items stock.old.loops.items states.old.items (length code.now.loops) }
    requires many { length stock.old.inputs.items ≡ length code.now.inputs }
    ensures forgotten { IfOk result (λ last. (counts : List ℕ) × HasForgotten code.now stock.old.inputs.items stock.new.inputs.items
        stock.old.loops.items stock.new.loops.items states.new.items counts given last) }
    ensures few { IfOk result (λ last. last ≤ given) }
{
    // What a code keeps is known from here on.
    let _ = code.loops();
    let firsts = first_reads(alloc, code, &stock.loops)?;
    let counts = count_all(alloc, stock, &firsts, given)?;
    let inputs = stock.inputs.len();
    forget_rows(alloc, &mut stock.inputs, &counts)?;
    forget_made(alloc, &mut stock.loops, &counts[inputs..])?;
    *states = new_states(alloc, code)?;
    Ok(counts[counts.len() - 1])
}

// How many snapshots of each buffer are let go, by the first tick of it that is read.
fn count_all(
    alloc: Global,
    stock: &Stock,
    firsts: &[Option<i64>],
    given: usize,
) -> Result<Vec<usize>, OutOfMemory>
    requires { 0 < length firsts.now }
    ensures many { IfOk result (λ counts. length counts.items ≡ length firsts.now) }
    ensures each { IfOk result (λ counts. (number : ℕ) → number < length firsts.now - 1 → IsUnread (get_or firsts.now number None)
        (get_or (kept_lists stock.now.inputs.items stock.now.loops.items) number []) (get_or counts.items number 0)) }
    ensures within { IfOk result (λ counts. (number : ℕ)
        → get_or counts.items number 0 ≤ length (get_or (kept_lists stock.now.inputs.items stock.now.loops.items) number [])) }
    ensures last { IfOk result (λ counts. get_or counts.items (length firsts.now - 1) 0
        ≡ min given (let_go (get_or firsts.now (length firsts.now - 1) None)
        (get_or (kept_lists stock.now.inputs.items stock.now.loops.items) (length firsts.now - 1) []))) }
{
    let mut counts = count_unread(alloc, stock, firsts)?;
    // No loop reads the last one.
    let last = counts.len() - 1;
    counts[last] = given.min(counts[last]);
    Ok(counts)
}

// How many snapshots of each buffer no next turn reads.
fn count_unread(
    alloc: Global,
    stock: &Stock,
    firsts: &[Option<i64>],
) -> Result<Vec<usize>, OutOfMemory>
    ensures many { IfOk result (λ counts. length counts.items ≡ length firsts.now) }
    ensures each { IfOk result (λ counts. (number : ℕ) → number < length firsts.now → IsUnread (get_or firsts.now number None)
        (get_or (kept_lists stock.now.inputs.items stock.now.loops.items) number []) (get_or counts.items number 0)) }
{
    let mut counts = Vec::new(alloc);
    for number in 0..firsts.len() {
        counts.push(stock.count_unread(number, firsts[number]))?;
    }
    Ok(counts)
}

// Lets the first closed rows of inputs go, as many of each as that.
fn forget_rows(alloc: Global, inputs: &mut [Inlet], counts: &[usize]) -> Result<(), OutOfMemory>
    requires many { length inputs.old ≤ length counts.now }
    requires within { (k : ℕ) (i : InletParts) → slice_get inputs.old k ≡ Some i → get_or counts.now k 0 ≤ length i.input.rows }
    ensures { OnOk result (inputs.new ≡ each_later later_inlet counts.now inputs.old) }
{
    for place in 0..inputs.len() {
        inputs[place].forget(alloc, counts[place])?;
    }
    Ok(())
}

// Lets the first settled snapshots of loops go, as many of each as that.
fn forget_made(alloc: Global, loops: &mut [Made], counts: &[usize]) -> Result<(), OutOfMemory>
    requires many { length loops.old ≤ length counts.now }
    requires within { (k : ℕ) (m : MadeParts) → slice_get loops.old k ≡ Some m → get_or counts.now k 0 ≤ length m.made }
    ensures { OnOk result (loops.new ≡ each_later later_made counts.now loops.old) }
{
    for place in 0..loops.len() {
        loops[place].forget(alloc, counts[place])?;
    }
    Ok(())
}
