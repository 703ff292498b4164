// A session after a checkpoint.
ghost use Rattle.std.specs.List.{AllByRecursion};
ghost use Rattle.std.specs.Prelude.{◌≡◌, ◌≤ℤ◌, IfOk, IfSome, length};
ghost use Rattle.tilt_checkpoint.specs.Checkpoint.{cuts_of};
ghost use Rattle.tilt_checkpoint.specs.Cuts.{CutsParts, IsCut};
ghost use Rattle.tilt_checkpoint.specs.Decided.{IsFrame, decided, first_kept, frame_of};
ghost use Rattle.tilt_checkpoint.specs.Valid.{IsCheckpoint, IsOpen};
ghost use Rattle.tilt_session.specs.Cuts.{IsOnward, IsInRange, decided_by};
ghost use Rattle.tilt_session.specs.Emitted.{open_start};
ghost use Rattle.tilt_compiler.specs.Compiled.{given};
ghost use Rattle.tilt_session.specs.Handed.{AreCells, closed_after, kept_at};
ghost use Rattle.tilt_session.specs.Later.{newly, next_by, resumed_at};
ghost use Rattle.tilt_session.specs.Law.{IsOneCut};
ghost use Rattle.tilt_session.specs.NewRows.{AreNewRows};
ghost use Rattle.tilt_stream.specs.Pieces.{joined_from};
ghost use Rattle.tilt_session.specs.declared.cut.Cut.TheVariants.{Upto};
ghost use Rattle.tilt_types.specs.Checked.{core_of};

use crate::closing::{Closed, close, join_from};
use crate::cut::Cut;
use crate::handed::{Handed, keep, rows_after};
use std::alloc::{AllocError as OutOfMemory, Global};
use tilt_checkpoint::{Checkpoint, Frame, Kept};
use tilt_compiler::Accepted;
use tilt_stream::{Rows, SnapList};

/// A session after a checkpoint: what is printed newly, and where the session ends by cuts its own checkpoint. The rows of an input are
/// those from its old cut on and, if there is one, below its new one, one list for each. Whatever the rows before them were, they need
/// not be there again: `law` says that the sessions print together, and leave, what one session does on all rows. `OutOfMemory` comes
/// if memory runs out, and for no other reason.
pub fn resume(
    alloc: Global,
    checkpoint: Checkpoint,
    accepted: &Accepted,
    rows: Vec<Rows>,
    cut: Cut,
) -> Result<(SnapList, Option<Checkpoint>), OutOfMemory>
    requires core { accepted.now.core ≡ core_of checkpoint.query }
    requires rows { AreNewRows cut checkpoint.series rows.items }
    requires onward { IsOnward (cuts_of checkpoint) cut }
    requires range { IsInRange cut }
    ensures newly { IfOk result (λ session. session.0 ≡ newly checkpoint rows.items cut) }
    ensures next { IfOk result (λ session. session.1 ≡ next_by checkpoint rows.items cut) }
    ensures valid { IfOk result (λ session. IfSome session.1 IsCheckpoint) }
    ensures law { IfOk result (λ _. IsOneCut checkpoint rows.items cut) }
{
    let after = After {
        frame: Frame::new(accepted.core(), accepted.margins()),
        cut: checkpoint.cut(),
        begun: checkpoint.open_start(),
    };
    let last = decided_by(after.frame, &cut);
    let (query, series) = checkpoint.into_parts();
    let handed = rows_after(alloc, series, &rows)?;
    let kept = keep_by(alloc, after.frame, &cut, &handed)?;
    let closed = go_on(alloc, accepted, after, handed.rows, last)?;
    let next = match cut {
        Cut::Upto(upto) => Some(Checkpoint::new(query, upto.least(), closed.open_start, kept)),
        Cut::End => None,
    };
    Ok((closed.printed, next))
}

// What is kept of each input where a session ends by cuts, and nothing where none comes after it.
fn keep_by(
    alloc: Global,
    frame: Frame,
    cut: &Cut,
    handed: &Handed,
) -> Result<Vec<Kept>, OutOfMemory>
    requires ends { length handed.now.ends.items ≡ length handed.now.rows.items }
    requires cuts { (upto : CutsParts) → cut.now ≡ Upto upto → length upto.each ≡ length handed.now.rows.items }
    requires frame { IsFrame frame }
    ensures kept { (upto : CutsParts) → cut.now ≡ Upto upto → IfOk result (λ series.
        series.items ≡ kept_at (first_kept frame upto.least) upto.each handed.now.ends.items handed.now.rows.items) }
    ensures cells { IfOk result (λ series. AllByRecursion (λ k. AreCells k.rows) series.items) }
{
    match cut {
        Cut::Upto(upto) => keep(alloc, handed, upto.each(), frame.first_kept(upto.least())),
        Cut::End => Ok(Vec::new(alloc)),
    }
}

// After what a session goes on: the least cut before it, and the start of the snapshot that was open there.
#[derive(Clone, Copy)]
struct After {
    frame: Frame,
    cut: i64,
    begun: Option<i64>,
}

// The last tick of the output that is decided where a session ends.
fn decided_by(frame: Frame, cut: &Cut) -> i64
    requires { IsFrame frame }
    ensures { result ≡ decided_by frame cut.now }
{
    match cut {
        Cut::Upto(upto) => frame.decided(upto.least()),
        Cut::End => frame.end,
    }
}

// What is printed newly where the output is decided up to a tick, and the start of the snapshot that is open there.
fn go_on(
    alloc: Global,
    accepted: &Accepted,
    after: After,
    rows: Vec<Rows>,
    last: i64,
) -> Result<Closed, OutOfMemory>
    requires inputs { length rows.items ≡ length accepted.now.core.inputs }
    requires framed { after.frame ≡ frame_of accepted.now.core }
    requires frame { IsFrame after.frame }
    requires cut { IsCut after.cut }
    requires begun { IsOpen after.frame (decided after.frame after.cut) after.begun }
    requires onward { decided after.frame after.cut ≤ℤ last }
    requires high { last ≤ℤ after.frame.end }
    ensures printed { IfOk result (λ made. made.printed ≡ closed_after after.frame after.cut last
        (joined_from after.begun (given accepted.now.core rows.items (resumed_at after.frame after.cut) last))) }
    ensures begun { IfOk result (λ made. made.open_start ≡ open_start after.frame last
        (joined_from after.begun (given accepted.now.core rows.items (resumed_at after.frame after.cut) last))) }
{
    let frame = after.frame;
    let decided = frame.decided(after.cut);
    if decided >= frame.end {
        return Ok(Closed {
            printed: SnapList::new(alloc),
            open_start: None,
        });
    }
    let from = frame.start.max(decided - 1);
    let list = accepted.run_on(alloc, rows, from, last)?;
    Ok(close(frame, last, join_from(after.begun, list)))
}
