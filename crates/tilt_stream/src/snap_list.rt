ghost use Rattle.std.specs.Prelude.{◌≡◌, ◌<◌, ◌≤◌, [], ◌∷◌, ◌++◌, length, neg_ℤ, pos, ◌+ℤ◌, ◌<ℤ◌, ◌≤ℤ◌};
ghost use Rattle.std.specs.Prelude.{slice_get, IsTrue, ◌↔◌, OnOk, OnErr, IfOk, IfSome, MatchOption};
ghost use Rattle.std.specs.List.{splice};
ghost use Rattle.std.specs.Option.{ForSome};
ghost use Rattle.tilt_base.specs.declared.limits.TheConstants.{WIDE};
ghost use Rattle.tilt_stream.specs.Marks.{NamesNextMark};
ghost use Rattle.tilt_stream.specs.Snap.{AreSnapshots, ended_below, gap_before, joined_open, last_end};
ghost use Rattle.tilt_stream.specs.Stream.{cell_at, stream_of, SameStream};

use crate::rows::Rows;
use crate::snap::{Row, Snap, last_end};
use std::alloc::{AllocError as OutOfMemory, Global};
use std::marker::Model;
use tilt_base::Cell;

/// Snapshots without gaps: times in `-WIDE..=WIDE`, each starting where the one before it ends. There may be none.
/// Outside of them the stream of the list is null.
#[derive(Drop)]
pub struct SnapList {
    snaps: Vec<Snap>,
}

impl Model for SnapList {
    ghost use Rattle.std.specs.Prelude.{List};
    ghost use Rattle.tilt_stream.specs.Snap.{Snapshot, AreSnapshots};

    ghost Value = { List Snapshot };

    ghost view = { λ l. l.snaps.items };

    ghost invariant = { λ l. AreSnapshots l.snaps.items };
}

impl SnapList {
    /// No snapshots.
    pub fn new(alloc: Global) -> SnapList
        ensures { result ≡ [] }
    {
        SnapList {
            snaps: Vec::new(alloc),
        }
    }

    /// Adds a snapshot that starts where the last one ends. If memory runs out, the list is as before.
    pub fn push(&mut self, snap: Snap) -> Result<(), OutOfMemory>
        requires touches { ForSome (last_end self.old) (λ end. end ≡ snap.start) }
        requires low { neg_ℤ WIDE ≤ℤ snap.start }
        requires high { snap.end ≤ℤ WIDE }
        ensures ok { OnOk result (self.new ≡ self.old ++ snap ∷ []) }
        ensures err { OnErr result (self.new ≡ self.old) }
    {
        prove!(snap.start < snap.end);
        self.snaps.push(snap)?;
        Ok(())
    }

    /// Adds snapshots after the last one, such that all are without gaps then. If memory runs out, the list is as before.
    pub fn append(&mut self, more: &[Snap]) -> Result<(), OutOfMemory>
        requires { AreSnapshots (self.old ++ more.now) }
        ensures ok { OnOk result (self.new ≡ self.old ++ more.now) }
        ensures err { OnErr result (self.new ≡ self.old) }
    {
        self.snaps.extend_from_slice(more)?;
        Ok(())
    }

    /// Replaces the snapshots from one place to before another, counted from 0, by others, such that all are without gaps then. If
    /// memory runs out, the list is as before.
    pub fn replace(&mut self, from: usize, to: usize, piece: SnapList) -> Result<(), OutOfMemory>
        requires order { from ≤ to }
        requires within { to ≤ length self.old }
        requires no_gaps { AreSnapshots (splice self.old from to piece) }
        ensures ok { OnOk result (self.new ≡ splice self.old from to piece) }
        ensures err { OnErr result (self.new ≡ self.old) }
    {
        self.snaps.splice(from..to, piece.snaps)?;
        Ok(())
    }

    /// Takes the last snapshot off: `None` exactly if there is none. It takes no memory.
    pub fn pop(&mut self) -> Option<Snap>
        ensures { MatchOption result ((self.old ≡ []) × (self.new ≡ [])) (λ last. self.old ≡ self.new ++ last ∷ []) }
    {
        self.snaps.pop()
    }

    /// The snapshots of rows: the rows, and one null snapshot for each gap between two of them. Their stream is the stream of the rows.
    pub fn from_rows(alloc: Global, rows: &Rows) -> Result<SnapList, OutOfMemory>
        ensures stream { IfOk result (λ list. SameStream (stream_of list) (stream_of rows.now)) }
    {
        let mut list = SnapList::new(alloc);
        for row in rows.as_slice() {
            list.push_row(*row)?;
        }
        Ok(list)
    }

    // Lets the first snapshot start at a tick that isn't above its start.
    pub(crate) fn open_at(&mut self, open_start: i64)
        requires some { 0 < length self.old }
        requires low { neg_ℤ WIDE ≤ℤ open_start }
        requires earlier { ForSome (slice_get self.old 0) (λ first. open_start ≤ℤ first.start) }
        ensures { self.new ≡ joined_open open_start self.old }
    {
        let first = self.snaps[0];
        self.snaps[0] = first.opened_at(open_start);
    }

    // Adds a row, after a null snapshot if there is a gap.
    fn push_row(&mut self, row: Row) -> Result<(), OutOfMemory>
        requires behind { ForSome (last_end self.old) (λ end. end ≤ℤ row.start) }
        requires low { neg_ℤ WIDE ≤ℤ row.start }
        requires high { row.end ≤ℤ WIDE }
        ensures { OnOk result (self.new ≡ self.old ++ gap_before (last_end self.old) row.start ++ row ∷ []) }
    {
        prove!(row.start < row.end);
        self.fill_gap(row.start)?;
        self.push(row)
    }

    // Adds a null snapshot if there is a gap between the end and this start.
    fn fill_gap(&mut self, start: i64) -> Result<(), OutOfMemory>
        requires behind { ForSome (last_end self.old) (λ end. end ≤ℤ start) }
        requires high { start ≤ℤ WIDE }
        ensures filled { OnOk result (self.new ≡ self.old ++ gap_before (last_end self.old) start) }
        ensures touches { OnOk result (ForSome (last_end self.new) (λ end. end ≡ start)) }
    {
        match self.last_end() {
            Some(end) if end < start => self.push(Snap {
                start: end,
                end: start,
                value: None,
            }),
            _ => Ok(()),
        }
    }

    // The end of the last snapshot, or `None` if there is none.
    fn last_end(&self) -> Option<i64>
        ensures value { result ≡ last_end self.now }
        ensures low { IfSome result (λ end. neg_ℤ WIDE ≤ℤ end) }
    {
        last_end(&self.snaps)
    }

    /// How many snapshots there are.
    pub fn len(&self) -> usize
        ensures { result ≡ length self.now }
    {
        self.snaps.len()
    }

    /// Whether there is no snapshot.
    pub fn is_empty(&self) -> bool
        ensures { IsTrue result ↔ (self.now ≡ []) }
    {
        self.snaps.is_empty()
    }

    /// The snapshot at a place, counted from 0.
    pub fn get(&self, i: usize) -> Snap
        requires { i < length self.now }
        ensures { slice_get self.now i ≡ Some result }
    {
        self.snaps[i]
    }

    /// The cell of the list's stream at a tick: null outside of all snapshots.
    pub fn value_at(&self, tick: i64) -> Cell
        ensures { result ≡ cell_at self.now tick }
    {
        let snap = self.first_left(tick)?;
        if snap.start < tick { snap.value } else { None }
    }

    /// The smallest tick above this one at which the list's stream has a mark: where a snapshot begins, or the last one
    /// has ended. `None` exactly if no such tick has a mark.
    pub fn next_begin(&self, after: i64) -> Option<i64>
        ensures next { NamesNextMark (stream_of self.now) after result }
        ensures low { IfSome result (λ next. neg_ℤ WIDE <ℤ next) }
        ensures high { IfSome result (λ next. next ≤ℤ (WIDE +ℤ pos 1)) }
    {
        let snap = self.first_left(after)?;
        if after <= snap.start {
            Some(snap.start + 1)
        } else {
            Some(snap.end + 1)
        }
    }

    // The first snapshot that doesn't end below the tick.
    fn first_left(&self, tick: i64) -> Option<Snap>
        ensures snap { result ≡ slice_get self.now (ended_below tick self.now) }
        ensures low { IfSome result (λ snap. neg_ℤ WIDE ≤ℤ snap.start) }
        ensures high { IfSome result (λ snap. snap.end ≤ℤ WIDE) }
        ensures no_gaps { AreSnapshots self.now }
    {
        let snap = self.snaps.get(self.ended_below(tick))?;
        Some(*snap)
    }

    // How many snapshots end below the tick.
    fn ended_below(&self, tick: i64) -> usize
        ensures { result ≡ ended_below tick self.now }
    {
        self.snaps.partition_point(|snap| snap.end < tick)
    }

    /// All snapshots in order.
    pub fn as_slice(&self) -> &[Snap]
        ensures snaps { result.now ≡ self.now }
        ensures no_gaps { AreSnapshots self.now }
    {
        &self.snaps
    }
}
