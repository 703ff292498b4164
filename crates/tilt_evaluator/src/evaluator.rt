// The plain evaluator.
ghost use Rattle.std.specs.Prelude.{◌≡◌, ◌+◌, ◌^◌, ◌≤◌, ◌≤ℤ◌, ◌<ℤ◌, neg_ℤ, Some, [], ◌∷◌, ◌++◌, length, IfOk, OnOk};
ghost use Rattle.std.specs.Option.{ForSome};
ghost use Rattle.tilt_base.specs.declared.limits.TheConstants.{WIDE};
ghost use Rattle.tilt_stream.specs.Snap.{last_end};
ghost use Rattle.tilt_stream.specs.Snapshots.{snapshot_on, snapshots};
ghost use Rattle.tilt_core.specs.Meaning.{meaning, output_of};

use crate::cells::source_cell;
use crate::marks::source_mark;
use crate::source::Source;
use std::alloc::{AllocError as OutOfMemory, Global};
use tilt_core::Core;
use tilt_stream::{Rows, Snap, SnapList};

/// What a query gives for the rows of its inputs, of which there is one list for each: the snapshots of what it emits, on
/// its output domain. This is as slow as `evaluate`.
pub fn evaluate_query(alloc: Global, core: &Core, inputs: &[Rows]) -> Result<SnapList, OutOfMemory>
    requires { length inputs.now ≡ length core.now.inputs }
    ensures { IfOk result (λ list. output_of core.now inputs.now ≡ Some list) }
{
    let domain = core.domain();
    let emitted = Source {
        inputs,
        defs: core.defs(),
        number: core.emitted(),
    };
    evaluate(alloc, &emitted, domain.start, domain.end)
}

/// The snapshots of a source on `(lo, hi]`, by the definition of its meaning: each tick is computed by itself, over
/// the whole series. There are none if `lo` isn't below `hi`. Any definitions may be given, also such as no query
/// has: a source that isn't there is null, and a definition reads only the sources before it.
///
/// This is slow, on purpose: the time grows with the number of ticks, and with the number of ticks in each window.
pub fn evaluate(alloc: Global, source: &Source, lo: i64, hi: i64) -> Result<SnapList, OutOfMemory>
    requires few { length source.now.defs.now ≤ 2 ^ 32 }
    requires low { neg_ℤ WIDE ≤ℤ lo }
    requires high { hi ≤ℤ WIDE }
    ensures { IfOk result (λ list.
        list ≡ snapshots (meaning source.now.inputs.now source.now.defs.now source.now.number) lo hi) }
{
    let mut list = SnapList::new(alloc);
    if lo >= hi {
        return Ok(list);
    }
    let mut start = lo;
    for end in lo + 1..hi {
        if source_mark(
            source.inputs,
            source.defs,
            source.number,
            i128::from(end) + 1,
        ) {
            push_piece(alloc, &mut list, source, start, end)?;
            start = end;
        }
    }
    push_piece(alloc, &mut list, source, start, hi)?;
    Ok(list)
}

// Adds the snapshot on `(start, end]`, with the cell that the source has at its first tick.
fn push_piece(
    alloc: Global,
    list: &mut SnapList,
    source: &Source,
    start: i64,
    end: i64,
) -> Result<(), OutOfMemory>
    requires few { length source.now.defs.now ≤ 2 ^ 32 }
    requires touches { ForSome (last_end list.old) (λ last. last ≡ start) }
    requires low { neg_ℤ WIDE ≤ℤ start }
    requires width { start <ℤ end }
    requires high { end ≤ℤ WIDE }
    ensures { OnOk result (list.new ≡ list.old
        ++ snapshot_on (meaning source.now.inputs.now source.now.defs.now source.now.number) start end ∷ []) }
{
    let first = i128::from(start) + 1;
    let value = source_cell(alloc, source.inputs, source.defs, source.number, first)?;
    list.push(Snap { start, end, value })
}
