// The file of a state, from the shelf to the state that a run goes on from.
ghost use Rattle.std.specs.Prelude.{◌≡◌, IfOk, IfErr};
ghost use Rattle.tilt_live_app.specs.StateFile.{RefusesState, TakesState};
ghost use Rattle.tilt_load.specs.Load.{IsLoadFault};
ghost use Rattle.tilt_outside.specs.Reads.{OnlyReads};
ghost use Rattle.tilt_report.specs.Report.{report_of};
ghost use Rattle.tilt_run_state.specs.Valid.{IsRunState};

use std::alloc::Global;
use tilt_feed_form::FeedForm;
use tilt_load::load;
use tilt_outside::Shelf;
use tilt_report::{Fault, Refusal};
use tilt_run_state::{RunState, StateRejection, read_state};
use tilt_syntax::Query;

// The state in the file of that name, if it is one of this query over a feed of this form.
pub(crate) fn load_state<'a, S: Shelf>(
    alloc: Global,
    shelf: &mut S,
    name: &'a str,
    query: &Query,
    form: &FeedForm,
) -> Result<RunState, Fault<'a>>
    requires { S.lends name.now }
    ensures taken { S.tells → IfOk result (λ state. TakesState query.now form.now (S.files shelf.old name.now) state) }
    ensures valid { IfOk result (λ state. IsRunState form.now state) }
    ensures query { IfOk result (λ state. state.state.query ≡ query.now) }
    ensures fault { IfErr result (λ fault. IsLoadFault S.tells (RefusesState query.now form.now name.now (S.files shelf.old name.now))
        (λ which. which ≡ name.now) (S.read_faults shelf.old) (S.read_faults shelf.new) (report_of fault)) }
    ensures rest { OnlyReads S.files S.read_faults S.save_faults S.takes shelf.old shelf.new }
{
    let bytes = load(alloc, shelf, name)?;
    match read_state(alloc, query, form, &bytes) {
        Ok(state) => Ok(state),
        Err(StateRejection::NotAState) => Err(Fault::Refused(Refusal::BadState)),
        Err(StateRejection::OtherQuery) => Err(Fault::Refused(Refusal::OtherQuery)),
        Err(StateRejection::OtherOptions) => Err(Fault::Refused(Refusal::OtherOptions)),
        Err(StateRejection::OutOfMemory) => Err(Fault::OutOfMemory),
    }
}
