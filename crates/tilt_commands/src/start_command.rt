// The first session of the query in a file.
ghost use Rattle.std.specs.Prelude.{◌≡◌, ⊤, List, ℕ, Ok, IfOk};
ghost use Rattle.tilt_checkpoint.specs.Cuts.{AreCuts};
ghost use Rattle.tilt_checkpoint.specs.Spelling.{spelling};
ghost use Rattle.tilt_session.specs.Emitted.{emitted};
ghost use Rattle.tilt_session.specs.Kept.{checkpoint_at};
ghost use Rattle.tilt_session.specs.NewRows.{AreFirstRows};
ghost use Rattle.tilt_session.specs.declared.cut.Cut.TheVariants.{Upto};
ghost use Rattle.tilt_load.specs.Does.{Does, reading};
ghost use Rattle.tilt_load.specs.FileCommand.{HasFileTurn};
ghost use Rattle.tilt_printed.specs.Answer.{Fits, comes_to};
ghost use Rattle.tilt_commands.specs.HandsOn.{IsBegun};
ghost use Rattle.tilt_commands.specs.SavedCut.{saved_cut_of};
ghost use Rattle.tilt_commands.specs.Start.{start_row};
ghost use Rattle.tilt_syntax.specs.Query.{IsQuery};
ghost use Rattle.tilt_types.specs.Checked.{checked};
ghost use Rattle.tilt_watch.specs.Watch.{Watch};
ghost use Rattle.tilt_cli.specs.Binding.{bindings_of};
ghost use Rattle.tilt_cli.specs.Upto.{IsUptoWithin, upto_of};

use crate::row_bounds::first_bounds;
use crate::saved_cut::SavedCut;
use std::alloc::{AllocError as OutOfMemory, Global};
use tilt_checkpoint::{Cuts, encode};
use tilt_cli::Bind;
use tilt_load::{LoadedQuery, cuts_by, load_query, load_session_inputs};
use tilt_outside::Shelf;
use tilt_printed::{Answered, Printed, Save, WholeText};
use tilt_report::Fault;
use tilt_session::start;
use tilt_stream::{Rows, SnapList};

/// The first session of the query in a file, up to a cut of each input: what is printed by then, and the checkpoint there, which is to be
/// saved. Each row of an input starts below its cut. Whether the cuts are given to the inputs is tested after the query and before the
/// input names are. All memory is taken here.
pub fn start_session<'a, S: Shelf>(
    alloc: Global,
    shelf: &mut S,
    query: &'a str,
    binds: &'a [Bind],
    fuse: bool,
    cut: SavedCut<'a>,
) -> Result<Answered<'a>, Fault<'a>>
    requires cut { IsUptoWithin (upto_of cut.upto.now) }
    requires lent { (name : List ℕ) → HasFileTurn (start_row (saved_cut_of cut) query.now) S.tells (S.files shelf.old) query.now
        (bindings_of binds.now) name → S.lends name }
    ensures does { Does (λ _. start_row (saved_cut_of cut.entry) query.now) comes_to (Fits ⊥ ⊥ ⊤) query.now (bindings_of binds.now)
        (reading S.tells S.files S.read_faults S.save_faults S.takes S.given shelf.old shelf.new) result }
    ensures begun { S.tells → IfOk result (λ answer. (watchers : List Watch)
        → IsBegun (S.files shelf.old) query.now (bindings_of binds.now) (saved_cut_of cut.entry) (comes_to watchers answer)) }
{
    let loaded = load_query(alloc, shelf, query, fuse)?;
    let inputs = loaded.accepted.core().inputs();
    let cuts = cuts_by(alloc, cut.upto, inputs)?;
    let bounds = first_bounds(alloc, &cuts)?;
    let rows = load_session_inputs(alloc, shelf, inputs, binds, &bounds)?;
    let (list, bytes) = first_session(alloc, loaded, rows, cuts)?;
    Ok(Answered {
        printed: Printed::Whole(WholeText::Snapshots(list)),
        save: Some(Save {
            name: cut.save,
            bytes,
        }),
    })
}

// The first session of a query on its rows, with the bytes of its checkpoint.
fn first_session(
    alloc: Global,
    loaded: LoadedQuery,
    rows: Vec<Rows>,
    upto: Cuts,
) -> Result<(SnapList, Vec<u8>), OutOfMemory>
    requires query { IsQuery loaded.query }
    requires core { checked loaded.query ≡ Ok loaded.accepted.core }
    requires rows { AreFirstRows loaded.accepted.core (Upto upto) rows.items }
    requires cuts { AreCuts upto }
    ensures printed { IfOk result (λ session. session.0 ≡ emitted loaded.accepted.core rows.items (Upto upto)) }
    ensures saved { IfOk result (λ session. session.1.items ≡ spelling (checkpoint_at loaded.query rows.items upto)) }
{
    let LoadedQuery { query, accepted } = loaded;
    let (printed, checkpoint) = start(alloc, query, &accepted, rows, upto)?;
    let bytes = encode(alloc, &checkpoint)?;
    Ok((printed, bytes))
}
