// A run that is cut.
ghost use Rattle.std.specs.Prelude.{◌≡◌, ◌∷◌, neg_ℤ, Some, IfOk};
ghost use Rattle.tilt_base.specs.declared.limits.TheConstants.{T};
ghost use Rattle.tilt_session.specs.Parts.{IsRun};
ghost use Rattle.tilt_core.specs.Meaning.{output_of};
ghost use Rattle.tilt_cli.specs.Number.{RiseFrom};

use crate::joined::Joined;
use std::alloc::{AllocError as OutOfMemory, Global};
use tilt_compiler::Accepted;
use tilt_stream::{Rows, SnapList};
use tilt_syntax::Query;

/// The snapshots of what a query gives on its output domain, by sessions that end by these cuts, and a last one. Each session is handed
/// the rows that start from the cut before it on and below its own. Otherwise it is handed nothing but the bytes of the checkpoint of
/// the session before it. The cuts, in ticks, don't fall; the first one is given by itself. `OutOfMemory` comes if memory runs out, and
/// for no other reason.
pub fn run_cut(
    alloc: Global,
    query: Query,
    accepted: &Accepted,
    rows: &[Rows],
    first: i64,
    later: &[i64],
) -> Result<SnapList, OutOfMemory>
    requires run { IsRun query accepted.now.core rows.now }
    requires cuts { RiseFrom (neg_ℤ T) T (first ∷ later.now) }
    ensures whole { IfOk result (λ list. output_of accepted.now.core rows.now ≡ Some list) }
{
    // The output domain is known from here on.
    let _ = accepted.domain();
    let mut joined = Joined::first(alloc, query, accepted, rows, first)?;
    for cut in later {
        joined = joined.go_on(alloc, accepted, rows, *cut)?;
    }
    joined.finish(alloc, accepted, rows)
}
