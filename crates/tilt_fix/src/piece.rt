// What takes the place of a part of the output.
ghost use Rattle.std.specs.Prelude.{◌≡◌, suc, pos, ◌+ℤ◌, ◌≤ℤ◌, [], Some, slice_get, IfOk};
ghost use Rattle.std.specs.Option.{ForSome};
ghost use Rattle.tilt_base.specs.declared.limits.TheConstants.{WIDE};
ghost use Rattle.tilt_fix.specs.Piece.{IsPieceOf};
ghost use Rattle.tilt_fix.specs.Replaced.{ended_at, stretched};
ghost use Rattle.tilt_stream.specs.Snap.{AreSnapshots, Snapshot, ended_below, last_end};

use std::alloc::{AllocError as OutOfMemory, Global};
use tilt_base::Span;
use tilt_stream::{Snap, SnapList, join_open};

// Snapshots that take the place of those from one place to before another, counted from 0.
#[derive(Drop)]
pub(crate) struct Piece {
    pub(crate) from: usize,
    pub(crate) to: usize,
    pub(crate) list: SnapList,
}

impl Piece {
    // One that takes no place.
    pub(crate) fn none(alloc: Global) -> Piece
        ensures from { result.from ≡ 0 }
        ensures to { result.to ≡ 0 }
        ensures list { result.list ≡ [] }
    {
        Piece {
            from: 0,
            to: 0,
            list: SnapList::new(alloc),
        }
    }
}

// The snapshots on these ticks as a piece of a list that covers them. Its first one goes on from where the list's snapshot there
// began. Its last one goes up to where the list's snapshot there ends.
pub(crate) fn piece_of(list: &SnapList, snaps: SnapList, on: Span) -> Result<Piece, OutOfMemory>
    requires { IsPieceOf list.now snaps on.start on.end }
    ensures from { IfOk result (λ piece. piece.from ≡ ended_below (on.start +ℤ pos 1) list.now) }
    ensures to { IfOk result (λ piece. piece.to ≡ suc (ended_below on.end list.now)) }
    ensures list { IfOk result (λ piece. (first last : Snapshot)
        → slice_get list.now (ended_below (on.start +ℤ pos 1) list.now) ≡ Some first
        → slice_get list.now (ended_below on.end list.now) ≡ Some last → piece.list ≡ stretched first.start last.end snaps) }
{
    let all = list.as_slice();
    let from = ended_below(all, on.start + 1);
    let up_to = ended_below(all, on.end);
    let first = all[from];
    let last = all[up_to];
    let ended = end_at(snaps, last.end)?;
    Ok(Piece {
        from,
        to: up_to + 1,
        list: join_open(ended, first.start),
    })
}

// The list with another end of its last one, which isn't below the one that it had.
fn end_at(snaps: SnapList, end: i64) -> Result<SnapList, OutOfMemory>
    requires no_gaps { AreSnapshots snaps }
    requires later { ForSome (last_end snaps) (λ old. old ≤ℤ end) }
    requires high { end ≤ℤ WIDE }
    ensures { IfOk result (λ list. list ≡ ended_at end snaps) }
{
    let mut list = snaps;
    if let Some(last) = list.pop() {
        prove!(last.start < last.end);
        list.push(Snap {
            start: last.start,
            end,
            value: last.value,
        })?;
    }
    Ok(list)
}

// How many of the snapshots end below a tick.
fn ended_below(snaps: &[Snap], tick: i64) -> usize
    requires { AreSnapshots snaps.now }
    ensures { result ≡ ended_below tick snaps.now }
{
    snaps.partition_point(|snap| snap.end < tick)
}
