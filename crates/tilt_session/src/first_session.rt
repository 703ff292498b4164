// The first session of a query.
ghost use Rattle.std.specs.Prelude.{◌≡◌, Ok, IfOk};
ghost use Rattle.tilt_checkpoint.specs.Cuts.{AreCuts};
ghost use Rattle.tilt_checkpoint.specs.Valid.{IsCheckpoint};
ghost use Rattle.tilt_session.specs.Emitted.{emitted};
ghost use Rattle.tilt_session.specs.Kept.{checkpoint_at};
ghost use Rattle.tilt_session.specs.NewRows.{AreFirstRows};
ghost use Rattle.tilt_session.specs.declared.cut.Cut.TheVariants.{Upto};
ghost use Rattle.tilt_syntax.specs.Query.{IsQuery};
ghost use Rattle.tilt_types.specs.Checked.{checked};

use crate::closing::close;
use crate::handed::{first_rows, keep};
use std::alloc::{AllocError as OutOfMemory, Global};
use tilt_checkpoint::{Checkpoint, Cuts, Frame};
use tilt_compiler::Accepted;
use tilt_stream::{Rows, SnapList};
use tilt_syntax::Query;

/// The first session of a query, up to a cut for each input: what is printed by then, and the checkpoint there. The rows of an input are
/// those that start below its cut, one list for each. `OutOfMemory` comes if memory runs out, and for no other reason.
pub fn start(
    alloc: Global,
    query: Query,
    accepted: &Accepted,
    rows: Vec<Rows>,
    upto: Cuts,
) -> Result<(SnapList, Checkpoint), OutOfMemory>
    requires query { IsQuery query }
    requires core { checked query ≡ Ok accepted.now.core }
    requires rows { AreFirstRows accepted.now.core (Upto upto) rows.items }
    requires cuts { AreCuts upto }
    ensures printed { IfOk result (λ session. session.0 ≡ emitted accepted.now.core rows.items (Upto upto)) }
    ensures left { IfOk result (λ session. session.1 ≡ checkpoint_at query rows.items upto) }
    ensures valid { IfOk result (λ session. IsCheckpoint session.1) }
{
    let frame = Frame::new(accepted.core(), accepted.margins());
    let cut = upto.least();
    let last = frame.decided(cut);
    let handed = first_rows(alloc, rows)?;
    let series = keep(alloc, &handed, upto.each(), frame.first_kept(cut))?;
    let list = accepted.run_on(alloc, handed.rows, frame.start, last)?;
    let closed = close(frame, last, list);
    Ok((
        closed.printed,
        Checkpoint::new(query, cut, closed.open_start, series),
    ))
}
