// What sessions have printed, joined, and what the last one hands on.
ghost use Rattle.std.specs.Prelude.{◌≡◌, ◌++◌, ◌≤ℤ◌, List, IfOk};
ghost use Rattle.tilt_checkpoint.specs.Checkpoint.{CheckpointParts};
ghost use Rattle.tilt_checkpoint.specs.Cuts.{IsCut};
ghost use Rattle.tilt_checkpoint.specs.Spelling.{Spells};
ghost use Rattle.tilt_checkpoint.specs.Valid.{IsCheckpoint};
ghost use Rattle.tilt_session.specs.Emitted.{emitted};
ghost use Rattle.tilt_session.specs.declared.cut.Cut.TheVariants.{End};
ghost use Rattle.tilt_session.specs.Parts.{AreJoined, IsRun};
ghost use Rattle.tilt_stream.specs.Snap.{AreSnapshots};
ghost use Rattle.tilt_syntax.specs.Tree.{StatementTree};

use crate::cut::Cut;
use crate::first_session::start;
use crate::later_session::resume;
use crate::part::session_rows;
use std::alloc::{AllocError as OutOfMemory, Global};
use tilt_checkpoint::{Checkpoint, Cuts, Frame, decode, encode};
use tilt_compiler::Accepted;
use tilt_stream::{Rows, SnapList};
use tilt_syntax::Query;

// What the sessions up to a cut of all inputs have printed, joined, and the bytes of the checkpoint that the last one hands on.
#[derive(Drop)]
pub(crate) struct Joined {
    pub(crate) printed: SnapList,
    pub(crate) bytes: Vec<u8>,
    pub(crate) cut: i64,
}

impl Joined {
    // The first session, up to a cut.
    pub(crate) fn first(
        alloc: Global,
        query: Query,
        accepted: &Accepted,
        rows: &[Rows],
        cut: i64,
    ) -> Result<Joined, OutOfMemory>
        requires run { IsRun query accepted.now.core rows.now }
        requires cut { IsCut cut }
        ensures joined { IfOk result (λ joined. AreJoined query accepted.now.core rows.now cut joined.printed joined.bytes.items) }
        ensures cut { IfOk result (λ joined. joined.cut ≡ cut) }
    {
        let part = session_rows(alloc, rows, None, Some(cut))?;
        let cuts = Cuts::same(alloc, cut, rows.len())?;
        let (printed, checkpoint) = start(alloc, query, accepted, part, cuts)?;
        let bytes = encode(alloc, &checkpoint)?;
        Ok(Joined {
            printed,
            bytes,
            cut: checkpoint.cut(),
        })
    }

    // One more session, up to a cut that isn't below the last one.
    pub(crate) fn go_on(
        self,
        alloc: Global,
        accepted: &Accepted,
        rows: &[Rows],
        cut: i64,
    ) -> Result<Joined, OutOfMemory>
        requires run { (query : List StatementTree) × IsRun query accepted.now.core rows.now
            × AreJoined query accepted.now.core rows.now self.cut self.printed self.bytes.items }
        requires onward { self.cut ≤ℤ cut }
        requires cut { IsCut cut }
        ensures joined { (query : List StatementTree) → IsRun query accepted.now.core rows.now
            → AreJoined query accepted.now.core rows.now self.cut self.printed self.bytes.items
            → IfOk result (λ joined. AreJoined query accepted.now.core rows.now cut joined.printed joined.bytes.items) }
        ensures cut { IfOk result (λ joined. joined.cut ≡ cut) }
    {
        // The bounds of the output are known from here on.
        let _ = Frame::new(accepted.core(), accepted.margins());
        let part = session_rows(alloc, rows, Some(self.cut), Some(cut))?;
        let checkpoint = handed_on(alloc, &self.bytes)?;
        let cuts = Cuts::same(alloc, cut, rows.len())?;
        let (list, next) = resume(alloc, checkpoint, accepted, part, Cut::Upto(cuts))?;
        let next = next.unwrap();
        let printed = with_list(self.printed, &list)?;
        let bytes = encode(alloc, &next)?;
        Ok(Joined {
            printed,
            bytes,
            cut: next.cut(),
        })
    }

    // The last session, and all that was printed.
    pub(crate) fn finish(
        self,
        alloc: Global,
        accepted: &Accepted,
        rows: &[Rows],
    ) -> Result<SnapList, OutOfMemory>
        requires run { (query : List StatementTree) × IsRun query accepted.now.core rows.now
            × AreJoined query accepted.now.core rows.now self.cut self.printed self.bytes.items }
        requires cut { IsCut self.cut }
        ensures { IfOk result (λ list. list ≡ emitted accepted.now.core rows.now End) }
    {
        // The bounds of the output are known from here on.
        let _ = Frame::new(accepted.core(), accepted.margins());
        let part = session_rows(alloc, rows, Some(self.cut), None)?;
        let checkpoint = handed_on(alloc, &self.bytes)?;
        let (list, _) = resume(alloc, checkpoint, accepted, part, Cut::End)?;
        with_list(self.printed, &list)
    }
}

// The checkpoint that a session handed on as bytes.
fn handed_on(alloc: Global, bytes: &[u8]) -> Result<Checkpoint, OutOfMemory>
    requires { (checkpoint : CheckpointParts) × IsCheckpoint checkpoint × Spells bytes.now checkpoint }
    ensures { (checkpoint : CheckpointParts) → IsCheckpoint checkpoint → Spells bytes.now checkpoint
        → IfOk result (λ found. found ≡ checkpoint) }
{
    match decode(alloc, bytes) {
        Ok(decoded) => Ok(decoded.checkpoint),
        // The bytes are those of a checkpoint, so that memory alone can be missing.
        Err(_) => Err(OutOfMemory),
    }
}

// Snapshots, and after them others.
fn with_list(mut printed: SnapList, list: &SnapList) -> Result<SnapList, OutOfMemory>
    requires { AreSnapshots (printed ++ list.now) }
    ensures { IfOk result (λ all. all ≡ printed ++ list.now) }
{
    printed.append(list.as_slice())?;
    Ok(printed)
}
