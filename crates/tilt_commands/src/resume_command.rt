// A session after the checkpoint in a file.
ghost use Rattle.std.specs.Prelude.{◌≡◌, ◌≢◌, ⊤, ℕ, List, None, IfOk, IfErr, IsSome, length};
ghost use Rattle.tilt_checkpoint.specs.Checkpoint.{cuts_of};
ghost use Rattle.tilt_checkpoint.specs.Cuts.{CutsParts};
ghost use Rattle.tilt_checkpoint.specs.Valid.{IsCheckpoint};
ghost use Rattle.tilt_session.specs.Cuts.{IsOnward};
ghost use Rattle.tilt_load.specs.Does.{Does, reading};
ghost use Rattle.tilt_load.specs.FileCommand.{HasFileTurn};
ghost use Rattle.tilt_load.specs.Load.{IsLoadFault};
ghost use Rattle.tilt_outside.specs.Counts.{added_count};
ghost use Rattle.tilt_outside.specs.Reads.{OnlyReads};
ghost use Rattle.tilt_printed.specs.Answer.{Fits, comes_to, save_of};
ghost use Rattle.tilt_report.specs.Report.{bad_checkpoint, refusal, report_of};
ghost use Rattle.tilt_commands.specs.HandsOn.{HandsOn, IsBeyond};
ghost use Rattle.tilt_commands.specs.Resume.{GoesOn, RefusesToGoOn, end_after, resume_row, saved_of};
ghost use Rattle.tilt_commands.specs.SavedCut.{IsEnding, RefusesEnd, cut_of, ending_of, faulty_end};
ghost use Rattle.tilt_stream.specs.Snap.{Snapshot};
ghost use Rattle.tilt_syntax.specs.Tree.{StatementTree};
ghost use Rattle.tilt_types.specs.Checked.{core_of};
ghost use Rattle.tilt_watch.specs.Watch.{Watch};
ghost use Rattle.tilt_cli.specs.Binding.{bindings_of};

use crate::row_bounds::later_bounds;
use crate::saved_cut::SavedCut;
use std::alloc::{AllocError as OutOfMemory, Global};
use tilt_checkpoint::{Checkpoint, encode};
use tilt_cli::Bind;
use tilt_lexer::Name;
use tilt_load::{LoadedCheckpoint, cuts_by, load_checkpoint, load_session_inputs};
use tilt_outside::Shelf;
use tilt_printed::{Answered, Printed, Save, WholeText};
use tilt_report::{Fault, Refusal};
use tilt_session::{Cut, next_cut, resume};
use tilt_stream::{Rows, SnapList};

/// A session after the checkpoint in a file. It results in what is printed newly, and, if the session ends by cuts, in its own
/// checkpoint, which is to be saved. If no cut is given, the session goes on to the last row, and nothing is saved. Each row of an
/// input starts at its cut of the checkpoint or after it, not before the last row ended, and before its new cut. Whether the cuts are
/// given to the inputs, and then whether one falls, is tested before the input names are. All memory is taken here. `beyond` says that
/// sessions together print what one session prints on all rows, and leave what it leaves. `good` says that what a session leaves is
/// never rejected as no checkpoint.
pub fn resume_session<'a, S: Shelf>(
    alloc: Global,
    shelf: &mut S,
    checkpoint: &'a str,
    binds: &'a [Bind],
    fuse: bool,
    ending: Option<SavedCut<'a>>,
) -> Result<Answered<'a>, Fault<'a>>
    requires range { IsEnding (ending_of ending) }
    requires lent { (name : List ℕ) → HasFileTurn (resume_row (ending_of ending) checkpoint.now) S.tells (S.files shelf.old)
        checkpoint.now (bindings_of binds.now) name → S.lends name }
    ensures does { Does (λ _. resume_row (ending_of ending.entry) checkpoint.now) comes_to (Fits ⊥ ⊥ (IsSome (ending_of ending.entry)))
        checkpoint.now (bindings_of binds.now)
        (reading S.tells S.files S.read_faults S.save_faults S.takes S.given shelf.old shelf.new) result }
    ensures beyond { S.tells → IfOk result (λ answer. (watchers : List Watch) (query : List StatementTree) (rows : List (List Snapshot))
        (cuts : CutsParts) → HandsOn (S.files shelf.old checkpoint.now) query rows cuts
        → IsBeyond (S.files shelf.old) (bindings_of binds.now) query rows cuts (ending_of ending.entry) (comes_to watchers answer)) }
    ensures good { S.tells → IfErr result (λ fault. (query : List StatementTree) (rows : List (List Snapshot)) (cuts : CutsParts)
        → HandsOn (S.files shelf.old checkpoint.now) query rows cuts → report_of fault ≢ refusal bad_checkpoint) }
{
    let onward = load_onward(alloc, shelf, checkpoint, fuse, ending)?;
    let inputs = onward.loaded.accepted.core().inputs();
    let bounds = later_bounds(alloc, onward.loaded.checkpoint.series(), &onward.cut)?;
    let rows = load_session_inputs(alloc, shelf, inputs, binds, &bounds)?;
    let Onward { loaded, cut } = onward;
    let LoadedCheckpoint {
        checkpoint: before,
        accepted,
    } = loaded;
    let (list, next) = resume(alloc, before, &accepted, rows, cut)?;
    let save = saved(alloc, ending, next)?;
    Ok(Answered {
        printed: Printed::Whole(WholeText::Lines(list)),
        save,
    })
}

// A checkpoint that was read, and where a session after it ends.
#[derive(Drop)]
struct Onward {
    loaded: LoadedCheckpoint,
    cut: Cut,
}

// The checkpoint in the file of that name, if the cuts are given to its inputs and none of them falls.
fn load_onward<'a, S: Shelf>(
    alloc: Global,
    shelf: &mut S,
    name: &'a str,
    fuse: bool,
    ending: Option<SavedCut<'_>>,
) -> Result<Onward, Fault<'a>>
    requires lent { S.lends name.now }
    requires range { IsEnding (ending_of ending) }
    ensures taken { S.tells → IfOk result (λ onward.
        GoesOn (ending_of ending.entry) (S.files shelf.old name.now) onward.loaded.checkpoint) }
    ensures valid { IfOk result (λ onward. IsCheckpoint onward.loaded.checkpoint) }
    ensures core { IfOk result (λ onward. onward.loaded.accepted.core ≡ core_of onward.loaded.checkpoint.query) }
    ensures cut { IfOk result (λ onward. onward.cut ≡ end_after (ending_of ending.entry) onward.loaded.checkpoint) }
    ensures onward { IfOk result (λ onward. IsOnward (cuts_of onward.loaded.checkpoint) onward.cut) }
    ensures fault { IfErr result (λ fault. IsLoadFault S.tells
        (RefusesToGoOn name.now (ending_of ending.entry) (S.files shelf.old name.now)) (λ which. which ≡ name.now)
        (S.read_faults shelf.old) (S.read_faults shelf.new) (report_of fault)) }
    ensures given { S.tells → IfOk result (λ _. S.given shelf.new ≡ added_count (S.given shelf.old) (length (S.files shelf.old name.now))) }
    ensures rest { OnlyReads S.files S.read_faults S.save_faults S.takes shelf.old shelf.new }
{
    let loaded = load_checkpoint(alloc, shelf, name, fuse)?;
    let inputs = loaded.accepted.core().inputs();
    let cut = cut_of(alloc, ending, inputs)?;
    match next_cut(&loaded.checkpoint, &cut) {
        Ok(()) => Ok(Onward { loaded, cut }),
        Err(back) => Err(Fault::Refused(Refusal::CutBack {
            old: back.old,
            new: back.new,
        })),
    }
}

// Where a session ends, for inputs of these names.
fn cut_of<'a>(
    alloc: Global,
    ending: Option<SavedCut<'_>>,
    inputs: &[Name],
) -> Result<Cut, Fault<'a>>
    requires { IsEnding (ending_of ending) }
    ensures named { IfOk result (λ _. faulty_end (ending_of ending.entry) inputs.now ≡ None) }
    ensures cut { IfOk result (λ cut. cut ≡ cut_of (ending_of ending.entry) inputs.now) }
    ensures fault { IfErr result (λ fault. IsLoadFault ⊤ (RefusesEnd (ending_of ending.entry) inputs.now) (λ _. ⊥) 0 0 (report_of fault)) }
{
    match ending {
        Some(cut) => {
            let cuts = cuts_by(alloc, cut.upto, inputs)?;
            Ok(Cut::Upto(cuts))
        }
        None => Ok(Cut::End),
    }
}

// The spelling of a checkpoint under the name, if there are both.
fn saved<'a>(
    alloc: Global,
    ending: Option<SavedCut<'a>>,
    next: Option<Checkpoint>,
) -> Result<Option<Save<'a>>, OutOfMemory>
    ensures { IfOk result (λ save. save_of save ≡ saved_of (ending_of ending.entry) next) }
{
    match (ending, next) {
        (Some(cut), Some(next)) => {
            let bytes = encode(alloc, &next)?;
            Ok(Some(Save {
                name: cut.save,
                bytes,
            }))
        }
        _ => Ok(None),
    }
}
