// The state of a run.
use std::marker::Model;
use tilt_live_state::LiveState;
use tilt_reading_text::KeptText;

/// What a run over a feed hands on to the next one. A clause sees it as plain data.
#[derive(Drop)]
pub struct RunState {
    /// The state of the run.
    pub state: LiveState,
    /// What is kept of the text of the feed, if that has readings.
    pub kept: Option<KeptText>,
}

impl Model for RunState {
    ghost use Rattle.std.specs.Coded.{codes};
    ghost use Rattle.tilt_run_state.specs.State.{RunStateParts};
    ghost use Rattle.tilt_syntax.specs.Stored.{coded_expr};

    ghost Value = { RunStateParts };

    ghost coded = { Prim.hlevel (codes, coded_expr) };

    ghost view = { λ s. record { state = s.state; kept = s.kept } };
}
