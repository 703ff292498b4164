// Which states are valid.
ghost use Rattle.std.specs.Prelude.{◌≡◌, ◌↔◌, ◌++◌, IsTrue, neg_ℤ};
ghost use Rattle.std.specs.List.{list_all};
ghost use Rattle.tilt_live_state.specs.Reading.{are_in_order, edge_follows, is_in_order, is_input, is_state_of};
ghost use Rattle.tilt_live_state.specs.Valid.{IsStateOf};
ghost use Rattle.tilt_base.specs.declared.limits.TheConstants.{T};
ghost use Rattle.tilt_feed.specs.Feed.{closed_at};
ghost use Rattle.tilt_stream.specs.Snap.{last_end};

use crate::inputs::follows;
use crate::state::{InputState, LiveState};
use tilt_base::T;
use tilt_core::Core;
use tilt_feed::Edge;
use tilt_stream::Rows;
use tilt_watermarks::fits;

// Whether a state of a query with this core is valid.
pub(crate) fn is_valid(core: &Core, state: &LiveState) -> bool
    ensures { IsTrue result ↔ IsStateOf core.now state.now }
{
    is_state_of(core, state)
}

// The same, as a test.
fn is_state_of(core: &Core, state: &LiveState) -> bool
    ensures { result ≡ is_state_of core.now state.now }
{
    let domain = core.domain();
    let progress = state.progress;
    domain.start <= progress.from
        && progress.from <= domain.end
        && state.inputs.len() == core.inputs().len()
        && are_inputs(progress.options.lateness, &state.inputs)
}

// Whether what is kept of each input is valid.
fn are_inputs(lateness: Option<u64>, inputs: &[InputState]) -> bool
    ensures { result ≡ list_all (is_input lateness) inputs.now }
{
    inputs.iter().all(|input| is_input(lateness, input))
}

// Whether what is kept of an input is valid.
fn is_input(lateness: Option<u64>, input: &InputState) -> bool
    ensures { result ≡ is_input lateness input.now }
{
    is_in_order(&input.rows, input.edge)
        && fits(input.edge.watermark, &input.held)
        && (lateness.is_some() || input.held.len() == 0)
}

// Whether rows and an edge after them are in order.
fn is_in_order(rows: &Rows, edge: Edge) -> bool
    ensures { result ≡ is_in_order rows.now edge }
{
    -T <= edge.watermark && edge.watermark <= T && is_after(rows, edge)
}

// Whether rows and then an open row are in order up to a watermark.
fn is_after(rows: &Rows, edge: Edge) -> bool
    ensures { result ≡ are_in_order (neg_ℤ T) edge.watermark (rows.now ++ closed_at edge.watermark edge.open_row) }
{
    // That the rows are in order is known from here on.
    let _known = rows.as_slice();
    edge_follows(rows.last_end(), edge)
}

// Whether an edge may be after rows that end there.
fn edge_follows(end: Option<i64>, edge: Edge) -> bool
    ensures { result ≡ edge_follows end edge.watermark edge.open_row }
{
    match edge.open_row {
        None => follows(end, edge.watermark),
        Some(row) => { -T <= row.start && follows(end, row.start) && row.start < edge.watermark }
    }
}
