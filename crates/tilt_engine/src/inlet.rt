// An input that is fed.
ghost use Rattle.std.specs.Prelude.{◌≡◌, ◌≤◌, ◌<ℤ◌, drop, length, None, IfOk, OnErr, OnOk, false, slice_get};
ghost use Rattle.std.specs.Option.{ForSome};
ghost use Rattle.tilt_engine.specs.FedRows.{left_inlet};
ghost use Rattle.tilt_engine.specs.Forgetting.{later_inlet};
ghost use Rattle.tilt_engine.specs.Stock.{finished_inlet, resting_inlet};
ghost use Rattle.tilt_feed.specs.Resting.{resting_end};
ghost use Rattle.tilt_feed.specs.Events.{opened_by, update_fault, updated, watermark_after};
ghost use Rattle.tilt_feed.specs.Laws.{IsInOrder};
ghost use Rattle.tilt_feed.specs.Feed.{closed_at, unknown_input};
ghost use Rattle.tilt_engine.specs.Wanted.{IsUnread};
ghost use Rattle.tilt_input_state.specs.Resume.{left_input};

use crate::closing::{add_closed, ended};
use crate::wanted::count_unread;
use std::alloc::{AllocError as OutOfMemory, Global};
use std::marker::Model;
use tilt_base::{T, WIDE};
use tilt_feed::{Edge, OpenRow, Update};
use tilt_input_state::InputState;
use tilt_stream::{Buffer, Rows, Snap};

// What is known of an input: its closed rows, the edge after them, and where the open row is taken to end.
#[derive(Drop)]
pub(crate) struct Inlet {
    rows: Rows,
    edge: Edge,
    end: i64,
}

impl Model for Inlet {
    ghost use Rattle.tilt_engine.specs.Stock.{InletParts, IsInlet, coded_inlet};

    ghost Value = { InletParts };

    ghost coded = { coded_inlet };

    ghost view = { λ i. record { input = record { rows = i.rows; edge = i.edge }; end = i.end } };

    ghost invariant = { λ i. IsInlet (record { input = record { rows = i.rows; edge = i.edge }; end = i.end }) };
}

impl Buffer for Inlet {
    ghost use Rattle.tilt_engine.specs.Stock.{inlet_list};

    ghost list = { inlet_list };

    ghost forgotten = { λ _. 0 };

    #[inline]
    fn made(&self) -> usize {
        match self.edge.open_row {
            Some(_) => self.rows.len() + 1,
            None => self.rows.len(),
        }
    }

    #[inline]
    fn first_kept(&self) -> usize {
        0
    }

    #[inline]
    fn at(&self, place: usize) -> Option<Snap> {
        if place < self.rows.len() {
            return Some(self.rows.get(place));
        }
        if place == self.rows.len() {
            return resting_row(self.edge.open_row, self.end);
        }
        None
    }
}

impl Inlet {
    // An input of which nothing is known.
    pub(crate) fn new(alloc: Global) -> Inlet
        ensures { result ≡ resting_inlet unknown_input }
    {
        Inlet {
            rows: Rows::new(alloc),
            edge: Edge {
                open_row: None,
                watermark: -T,
            },
            end: WIDE,
        }
    }

    // An input of which this is known, while more may come.
    pub(crate) fn of(alloc: Global, input: &InputState) -> Result<Inlet, OutOfMemory>
        ensures { IfOk result (λ inlet. inlet ≡ resting_inlet input.now) }
    {
        let mut rows = Rows::new(alloc);
        rows.append(input.rows())?;
        let edge = input.edge();
        Ok(Inlet {
            rows,
            edge,
            end: resting_end(edge),
        })
    }

    // Where what is known of it ends.
    #[inline]
    pub(crate) fn edge(&self) -> Edge
        ensures edge { result ≡ self.now.input.edge }
        ensures order { IsInOrder self.now.input }
    {
        self.edge
    }

    // Takes an update that is allowed. If memory runs out, nothing changes.
    pub(crate) fn update(&mut self, update: Update) -> Result<(), OutOfMemory>
        requires { update_fault false self.old.input.edge update ≡ None }
        ensures ok { OnOk result (self.new ≡ resting_inlet (updated update self.old.input)) }
        ensures err { OnErr result (self.new ≡ self.old) }
    {
        add_closed(&mut self.rows, self.edge, update)?;
        self.edge = edge_after(self.edge, update);
        self.end = resting_end(self.edge);
        Ok(())
    }

    // How many closed rows are kept.
    pub(crate) fn kept(&self) -> usize
        ensures { result ≡ length self.now.input.rows }
    {
        self.rows.len()
    }

    // How many of its closed rows no turn reads, of which the turns read a first tick, or nothing.
    pub(crate) fn count_unread(&self, first: Option<i64>) -> usize
        ensures { IsUnread first self.now.input.rows result }
    {
        count_unread(self.rows.as_slice(), first)
    }

    // Lets its first closed rows go, as many as that. If memory runs out, nothing changes.
    pub(crate) fn forget(&mut self, alloc: Global, count: usize) -> Result<(), OutOfMemory>
        requires { count ≤ length self.old.input.rows }
        ensures { OnOk result (self.new ≡ later_inlet count self.old) }
    {
        let rows = self.rows_after(alloc, count)?;
        self.rows = rows;
        Ok(())
    }

    // Lets its closed rows go that end below a tick. If memory runs out, nothing changes.
    pub(crate) fn forget_below(&mut self, alloc: Global, first: i64) -> Result<(), OutOfMemory>
        ensures { OnOk result (self.new ≡ left_inlet first self.old) }
    {
        // That its rows are in order is known from here on.
        let _ = self.edge();
        let count = self.count_unread(Some(first));
        self.forget(alloc, count)
    }

    // What is left of it without the closed rows that end below a tick.
    pub(crate) fn left(&self, alloc: Global, first: i64) -> Result<InputState, OutOfMemory>
        ensures { IfOk result (λ input. input ≡ left_input first self.now.input) }
    {
        let rows = self.rows_after(alloc, self.count_unread(Some(first)))?;
        InputState::new(rows, self.edge).ok_or(OutOfMemory)
    }

    // A copy of its closed rows after the first ones, as many as that.
    fn rows_after(&self, alloc: Global, count: usize) -> Result<Rows, OutOfMemory>
        requires { count ≤ length self.now.input.rows }
        ensures { IfOk result (λ rows. rows ≡ drop count self.now.input.rows) }
    {
        let mut rest = Rows::new(alloc);
        rest.append(&self.rows.as_slice()[count..])?;
        Ok(rest)
    }

    // Takes it that nothing more comes.
    pub(crate) fn finish(&mut self)
        ensures { self.new ≡ finished_inlet self.old.input }
    {
        self.end = self.edge.watermark;
    }
}

// An open row, if there is one, ended at a tick.
#[inline]
fn resting_row(open_row: Option<OpenRow>, end: i64) -> Option<Snap>
    requires { ForSome open_row (λ row. row.start <ℤ end) }
    ensures { result ≡ slice_get (closed_at end open_row) 0 }
{
    match open_row {
        Some(row) => Some(ended(row, end)),
        None => None,
    }
}

// The edge after an update that is allowed.
fn edge_after(edge: Edge, update: Update) -> Edge
    requires { update_fault false edge update ≡ None }
    ensures { result ≡ record { open_row = opened_by edge update; watermark = watermark_after update } }
{
    match update {
        Update::Row { end, .. } => Edge {
            open_row: None,
            watermark: end,
        },
        Update::Value { start, value } => Edge {
            open_row: Some(OpenRow { start, value }),
            watermark: start + 1,
        },
        Update::NoValue { start } => Edge {
            open_row: None,
            watermark: (start + 1).min(T),
        },
        Update::KnownUpTo { watermark } => Edge {
            open_row: edge.open_row,
            watermark,
        },
    }
}

// Where an open row is taken to end while that isn't known.
fn resting_end(edge: Edge) -> i64
    ensures { result ≡ resting_end edge }
{
    if edge.watermark == T { T } else { WIDE }
}
