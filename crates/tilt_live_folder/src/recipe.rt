// What makes the machine of a query.
ghost use Rattle.std.specs.Prelude.{◌≡◌, IfErr, IfOk, MatchResult};
ghost use Rattle.tilt_checkpoint.specs.Valid.{IsAccepted};
ghost use Rattle.tilt_live_folder.specs.Feeds.{RejectsState};
ghost use Rattle.tilt_run_state.specs.Rejection.{TakesState};
ghost use Rattle.tilt_run_state.specs.Spelling.{spelled};
ghost use Rattle.tilt_run_state.specs.State.{RunStateParts};
ghost use Rattle.tilt_run_state.specs.Valid.{IsInRange, IsRunState};
ghost use Rattle.tilt_types.specs.Checked.{core_of};

use std::alloc::Global;
use std::marker::Model;
use tilt_compiler::Accepted;
use tilt_exactly_once::Refusal;
use tilt_live_run::RunOptions;
use tilt_run_state::{RunState, StateRejection, read_state};
use tilt_syntax::Query;

/// An accepted query with its core, and the options of its run. The machine is made from it.
#[derive(Drop)]
pub struct LiveRecipe {
    pub(crate) query: Query,
    pub(crate) accepted: Accepted,
    pub(crate) options: RunOptions,
}

impl Model for LiveRecipe {
    ghost use Rattle.std.specs.Coded.{codes};
    ghost use Rattle.std.specs.Prelude.{◌≡◌};
    ghost use Rattle.tilt_checkpoint.specs.Valid.{IsAccepted};
    ghost use Rattle.tilt_compiler.specs.Accepted.{coded_accepted};
    ghost use Rattle.tilt_live_folder.specs.Feeds.{LiveFeed};
    ghost use Rattle.tilt_syntax.specs.Stored.{coded_expr};
    ghost use Rattle.tilt_types.specs.Checked.{core_of};

    ghost Value = { LiveFeed };

    ghost coded = { Prim.hlevel (codes, coded_accepted, coded_expr) };

    ghost view = { λ r. record { query = r.query; accepted = r.accepted; options = r.options } };

    ghost invariant = { λ r. IsAccepted r.query × (core_of r.query ≡ r.accepted.core) };
}

impl LiveRecipe {
    /// The recipe of an accepted query.
    pub fn new(query: Query, accepted: Accepted, options: RunOptions) -> LiveRecipe
        requires accepted { IsAccepted query }
        requires core { core_of query ≡ accepted.core }
        ensures { result ≡ record { query = query; accepted = accepted; options = options } }
    {
        LiveRecipe {
            query,
            accepted,
            options,
        }
    }

    // The state that a text spells, if it is one of this query and of the form of its feed.
    pub(crate) fn read(&self, alloc: Global, text: &[u8]) -> Result<RunState, Refusal>
        ensures taken { IfOk result (TakesState self.now.query self.now.options.form text.now) }
        ensures only { (s : RunStateParts) → IsRunState self.now.options.form s → IsInRange s → text.now ≡ spelled self.now.options.form s
            → s.state.query ≡ self.now.query → MatchResult result (λ state. state ≡ s) (λ why. why ≡ Refusal.OutOfMemory) }
        ensures rejected { IfErr result (RejectsState self.now text.now) }
    {
        match read_state(alloc, &self.query, &self.options.form, text) {
            Ok(state) => Ok(state),
            Err(StateRejection::NotAState) => Err(Refusal::NotAState),
            Err(StateRejection::OtherQuery) => Err(Refusal::OtherQuery),
            Err(StateRejection::OtherOptions) => Err(Refusal::OtherOptions),
            Err(StateRejection::OutOfMemory) => Err(Refusal::OutOfMemory),
        }
    }
}
