use crate::progress::Progress;
use std::marker::Model;
use tilt_feed::{Edge, Update};
use tilt_stream::Rows;
use tilt_syntax::Query;

/// What is kept of an input. A clause sees it as plain data.
#[derive(Drop)]
pub struct InputState {
    /// The closed rows that are kept.
    pub rows: Rows,
    /// Where what is known of it ends.
    pub edge: Edge,
    /// The updates that its watermarks hold, in order of their starts.
    pub held: Vec<Update>,
}

impl Model for InputState {
    ghost use Rattle.tilt_live_state.specs.State.{InputParts};

    ghost Value = { InputParts };

    ghost view = { λ i. record { rows = i.rows; edge = i.edge; held = i.held.items } };
}

/// What a live run hands on to the next one. A clause sees it as plain data.
#[derive(Drop)]
pub struct LiveState {
    /// The query.
    pub query: Query,
    /// How far the run is.
    pub progress: Progress,
    /// What is kept of each input, in the order of the query.
    pub inputs: Vec<InputState>,
}

impl Model for LiveState {
    ghost use Rattle.std.specs.Coded.{codes};
    ghost use Rattle.tilt_live_state.specs.State.{LiveStateParts};
    ghost use Rattle.tilt_syntax.specs.Stored.{coded_expr};

    ghost Value = { LiveStateParts };

    ghost coded = { Prim.hlevel (codes, coded_expr) };

    ghost view = { λ s. record { query = s.query; progress = s.progress; inputs = s.inputs.items } };
}
