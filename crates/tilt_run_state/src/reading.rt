// From a text to the state that a run of a query goes on from.
ghost use Rattle.std.specs.Prelude.{◌≡◌, ◌↔◌, IsTrue, IfOk, IfErr, MatchResult};
ghost use Rattle.tilt_run_state.specs.Rejection.{Begins, BeginsOtherwise, RejectsState, TakesState};
ghost use Rattle.tilt_run_state.specs.Rejection as rejection;
ghost use Rattle.tilt_run_state.specs.Spelling.{spelled};
ghost use Rattle.tilt_run_state.specs.State.{RunStateParts};
ghost use Rattle.tilt_run_state.specs.Valid.{HasOptions, IsInRange, IsRunState};

use crate::decoder::decode_state;
use crate::encoder::put_readings_opening;
use crate::query::is_same;
use crate::rejection::StateRejection;
use crate::state::RunState;
use std::alloc::{AllocError as OutOfMemory, Global};
use tilt_feed_form::FeedForm;
use tilt_syntax::Query;

/// The state that a text spells, if it is one of a run of this query over a feed in this form. The errors are these. `NotAState`: the text
/// spells no valid state whose numbers are in range. `OtherQuery`: it spells one of another query. `OtherOptions`: it begins as a state of
/// a run over a feed in the other form or with another setup, or it spells one whose watermarks have other options. `OutOfMemory` occurs if
/// memory runs out.
pub fn read_state(
    alloc: Global,
    query: &Query,
    form: &FeedForm,
    text: &[u8],
) -> Result<RunState, StateRejection>
    ensures taken { IfOk result (TakesState query.now form.now text.now) }
    ensures only { (s : RunStateParts) → IsRunState form.now s → IsInRange s → text.now ≡ spelled form.now s → s.state.query ≡ query.now
        → MatchResult result (λ found. found ≡ s) (λ why. why ≡ StateRejection.OutOfMemory) }
    ensures rejected { IfErr result (RejectsState query.now form.now text.now) }
{
    if begins_otherwise(alloc, form, text)? {
        return Err(StateRejection::OtherOptions);
    }
    let state = decode_state(alloc, form, text)?;
    if !is_same(alloc, &state.state.query, query)? {
        return Err(StateRejection::OtherQuery);
    }
    if !has_options(form, &state) {
        return Err(StateRejection::OtherOptions);
    }
    Ok(state)
}

// Whether the watermarks of a feed of rows have its options in a state.
fn has_options(form: &FeedForm, state: &RunState) -> bool
    ensures { IsTrue result ↔ HasOptions form.now state.now }
{
    match form {
        FeedForm::Rows { options } => state.state.progress.options == *options,
        FeedForm::Readings { .. } => true,
    }
}

// Whether a text begins as a state of a run over a feed in the other form or with another setup.
fn begins_otherwise(alloc: Global, form: &FeedForm, text: &[u8]) -> Result<bool, OutOfMemory>
    ensures { IfOk result (λ otherwise. IsTrue otherwise ↔ BeginsOtherwise form.now text.now) }
{
    match form {
        FeedForm::Rows { .. } => Ok(begins(b"tilt live 2\n", text)),
        FeedForm::Readings { setup } => {
            let mut front = Vec::new(alloc);
            put_readings_opening(&mut front, setup)?;
            Ok(begins_beside(&front, text))
        }
    }
}

// Whether a text begins as a state of a run over rows, or of one over readings with another opening.
fn begins_beside(front: &[u8], text: &[u8]) -> bool
    ensures { IsTrue result ↔ rejection.BeginsBeside front.now text.now }
{
    if begins(b"tilt live 1\n", text) {
        return true;
    }
    begins(b"tilt live 2\n", text) && !begins(front, text)
}

// Whether a text begins with these bytes.
fn begins(front: &[u8], text: &[u8]) -> bool
    ensures { IsTrue result ↔ Begins front.now text.now }
{
    text.starts_with(front)
}
