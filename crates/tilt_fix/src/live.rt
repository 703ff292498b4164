// The rows of a query's inputs, and what it gives on them.
ghost use Rattle.std.specs.Prelude.{◌≡◌, ◌⊎◌, ◌<◌, Ok, Err, Some, [], length, slice_get, IfOk, IfErr, OnErr};
ghost use Rattle.std.specs.List.{slice_index_or};
ghost use Rattle.tilt_core.specs.Meaning.{output_of};
ghost use Rattle.tilt_fix.specs.Change.{IsChangeOf, all_made};
ghost use Rattle.tilt_edits.specs.Edited.{IsEditOf, after_edit, input_of};
ghost use Rattle.tilt_fix.specs.Put.{IsPut};
ghost use Rattle.tilt_fix.specs.Reached.{reached};
ghost use Rattle.tilt_edits.specs.declared.fault.FixFault.{FixFault};

use crate::change::{Change, change_of};
use crate::piece::{Piece, piece_of};
use crate::put::put;
use crate::reach::{reached, widened};
use crate::window::windows_after;
use std::alloc::{AllocError as OutOfMemory, Global};
use std::marker::Model;
use tilt_base::Span;
use tilt_compiler::Accepted;
use tilt_edits::{Edit, FixFault};
use tilt_pipe::{run_pipe, share_inputs, share_rows, take_rows};
use tilt_stream::{Rows, SnapList};

/// The rows of an accepted query's inputs, and at every moment the snapshots of what the query means on them. A clause sees it as plain
/// data: the query, the rows and the output.
#[derive(Drop)]
pub struct Live {
    alloc: Global,
    accepted: Accepted,
    rows: Vec<Rows>,
    output: SnapList,
}

impl Model for Live {
    ghost use Rattle.tilt_fix.specs.Live.{LiveParts, IsLive, coded_live};

    ghost Value = { LiveParts };

    ghost coded = { coded_live };

    ghost view = { λ l. record { query = l.accepted; rows = l.rows.items; output = l.output } };

    ghost invariant = { λ l. IsLive (record { query = l.accepted; rows = l.rows.items; output = l.output }) };
}

impl Live {
    /// The query on these rows, one list for each input.
    pub fn new(alloc: Global, accepted: Accepted, rows: Vec<Rows>) -> Result<Live, OutOfMemory>
        requires { length rows.items ≡ length accepted.core.inputs }
        ensures query { IfOk result (λ live. live.query ≡ accepted) }
        ensures rows { IfOk result (λ live. live.rows ≡ rows.items) }
    {
        let code = accepted.code(alloc)?;
        let inputs = share_rows(alloc, rows)?;
        let output = run_pipe(alloc, code, share_inputs(alloc, &inputs)?)?;
        let rows = take_rows(alloc, inputs)?;
        Ok(Live {
            alloc,
            accepted,
            rows,
            output,
        })
    }

    /// Applies an edit, and returns the ticks of the output that it reaches, or `None` if there are none. The output is computed again
    /// on these ticks. `NoSuchRow` comes exactly if a row is to be removed, or to get another value, and no row has exactly these times.
    /// `Overlaps` comes exactly if a row is to be added, and another has a tick in common with it; it names the first such row. After
    /// each error, also out of memory, all is as before.
    pub fn apply(&mut self, edit: &Edit) -> Result<Option<Span>, FixFault>
        requires { IsEditOf (length self.old.rows) edit.now }
        ensures rows { IfOk result (λ _. after_edit self.old.rows edit.now ≡ Ok self.new.rows) }
        ensures reached { IfOk result (λ span. span ≡ reached self.old.query edit.now) }
        ensures query { self.new.query ≡ self.old.query }
        ensures refused { IfErr result (λ fault.
            (fault ≡ FixFault.OutOfMemory) ⊎ (after_edit self.old.rows edit.now ≡ Err fault)) }
        ensures first { (fault : FixFault) → after_edit self.old.rows edit.now ≡ Err fault → result ≡ Err fault }
        ensures kept { OnErr result (self.new ≡ self.old) }
    {
        let input = edit.input() as usize;
        let change = change_of(self.rows[input].as_slice(), edit)?;
        let reached = reached(&self.accepted, edit);
        let piece = self.piece(edit, &change, reached)?;
        put(&mut self.rows[input], &mut self.output, &change, piece)?;
        Ok(reached)
    }

    // What takes the place of a part of the output when an edit that reaches these ticks changes the rows.
    fn piece(&self, edit: &Edit, change: &Change, span: Option<Span>) -> Result<Piece, OutOfMemory>
        requires edit { IsEditOf (length self.now.rows) edit.now }
        requires change { IsChangeOf edit.now (slice_index_or self.now.rows (input_of edit.now) []) change.now }
        requires reached { span ≡ reached self.now.query edit.now }
        ensures { IfOk result (λ piece. IsPut self.now.query (all_made change.now (input_of edit.now) self.now.rows) self.now.output
            piece.from piece.to piece.list) }
    {
        // The output domain is known from here on.
        let _domain = self.accepted.domain();
        match span {
            None => Ok(Piece::none(self.alloc)),
            Some(span) => self.piece_on(edit, change, span),
        }
    }

    // The same if it reaches some ticks. The output is computed again on these and the tick before them, on windows of the rows.
    fn piece_on(&self, edit: &Edit, change: &Change, span: Span) -> Result<Piece, OutOfMemory>
        requires edit { IsEditOf (length self.now.rows) edit.now }
        requires change { IsChangeOf edit.now (slice_index_or self.now.rows (input_of edit.now) []) change.now }
        requires reached { reached self.now.query edit.now ≡ Some span }
        ensures { IfOk result (λ piece. IsPut self.now.query (all_made change.now (input_of edit.now) self.now.rows) self.now.output
            piece.from piece.to piece.list) }
    {
        let on = widened(self.accepted.domain(), span);
        let needs = self.accepted.margins().needs();
        let windows = windows_after(self.alloc, &self.rows, edit, change, needs, on)?;
        let snaps = self.accepted.run_on(self.alloc, windows, on.start, on.end)?;
        piece_of(&self.output, snaps, on)
    }

    /// What the query gives on the rows.
    pub fn output(&self) -> &SnapList
        ensures value { result.now ≡ self.now.output }
        ensures law { output_of self.now.query.core self.now.rows ≡ Some result.now }
    {
        &self.output
    }

    /// What the query gives on the rows, when they aren't needed any more.
    pub fn into_output(self) -> SnapList
        ensures value { result ≡ self.output }
        ensures law { output_of self.query.core self.rows ≡ Some result }
    {
        let Live { output, .. } = self;
        output
    }

    /// The rows of an input, which is counted from 0.
    pub fn rows(&self, input: u32) -> &Rows
        requires { input < length self.now.rows }
        ensures { slice_get self.now.rows input ≡ Some result.now }
    {
        &self.rows[input as usize]
    }
}
