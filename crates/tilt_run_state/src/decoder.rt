// The state that a text spells, in whatever form its feed is.
ghost use Rattle.std.specs.Prelude.{◌≡◌, ◌↔◌, ◌++◌, length, IsTrue, None, Some, IfOk, IfErr};
ghost use Rattle.tilt_feed_form.specs.declared.feed_form.FeedForm.TheVariants.{Readings};
ghost use Rattle.tilt_live_state.specs.Spelling as live;
ghost use Rattle.tilt_live_state.specs.State.{LiveStateParts};
ghost use Rattle.tilt_live_state.specs.Valid as valid;
ghost use Rattle.tilt_reading_state.specs.Valid as readings;
ghost use Rattle.tilt_run_state.specs.Rejection.{Spells, SpellsNone};
ghost use Rattle.tilt_run_state.specs.Spelling.{kept_lines, spelled};
ghost use Rattle.tilt_run_state.specs.State.{RunStateParts};
ghost use Rattle.tilt_run_state.specs.Valid.{IsInRange, IsKeptOf, IsStateIn};
ghost use Rattle.tilt_watermarks.specs.Laws.{no_options};

use crate::encoder::put_readings_opening;
use crate::state::RunState;
use std::alloc::Global;
use tilt_feed_form::{FeedForm, ReadingSetup};
use tilt_live_state::{LiveState, StateFault, decode};
use tilt_reading_state::{KeptFault, decode_kept};
use tilt_reading_text::KeptText;
use tilt_watermarks::Options;

// No option is given.
const NO_OPTIONS: Options = Options {
    idle: None,
    ahead: None,
    lateness: None,
};

// The state of a run over a feed in this form that a text spells, whatever its query and the options of its watermarks.
pub(crate) fn decode_state(
    alloc: Global,
    form: &FeedForm,
    text: &[u8],
) -> Result<RunState, StateFault>
    ensures spelled { IfOk result (Spells form.now text.now) }
    ensures only { (s : RunStateParts) → IsStateIn form.now s → IsInRange s → text.now ≡ spelled form.now s
        → IfOk result (λ found. found ≡ s) }
    ensures none { IfErr result (SpellsNone form.now text.now) }
{
    match form {
        FeedForm::Rows { .. } => match decode(alloc, text) {
            Ok(decoded) => Ok(of_rows(decoded.state)),
            Err(fault) => Err(fault),
        },
        FeedForm::Readings { setup } => decode_readings(alloc, setup, text),
    }
}

// The state of a run over readings that a text spells.
fn decode_readings(alloc: Global, setup: &ReadingSetup, text: &[u8]) -> Result<RunState, StateFault>
    ensures spelled { IfOk result (Spells (Readings setup.now) text.now) }
    ensures only { (s : RunStateParts) → IsStateIn (Readings setup.now) s → IsInRange s → text.now ≡ spelled (Readings setup.now) s
        → IfOk result (λ found. found ≡ s) }
    ensures none { IfErr result (SpellsNone (Readings setup.now) text.now) }
{
    let mut front = Vec::new(alloc);
    put_readings_opening(&mut front, setup)?;
    match text.strip_prefix(front.as_slice()) {
        Some(rest) => decode_parts(alloc, setup, rest),
        None => Err(StateFault::NotAState),
    }
}

// The state that a text spells after its opening.
fn decode_parts(alloc: Global, setup: &ReadingSetup, text: &[u8]) -> Result<RunState, StateFault>
    ensures valid { IfOk result (IsStateIn (Readings setup.now)) }
    ensures spelled { IfOk result (λ s. text.now ≡ kept_lines s.kept ++ live.spelled s.state) }
    ensures only { (s : RunStateParts) → IsStateIn (Readings setup.now) s → IsInRange s
        → text.now ≡ kept_lines s.kept ++ live.spelled s.state → IfOk result (λ found. found ≡ s) }
    ensures none { IfErr result (λ fault. fault ≡ StateFault.NotAState
        → (s : RunStateParts) → IsStateIn (Readings setup.now) s → IsInRange s → ¬ (text.now ≡ kept_lines s.kept ++ live.spelled s.state)) }
{
    match decode_kept(alloc, text) {
        Ok((kept, count)) => decode_live(alloc, setup, kept, &text[count..]),
        Err(KeptFault::NotKept) => Err(StateFault::NotAState),
        Err(KeptFault::OutOfMemory) => Err(StateFault::OutOfMemory),
    }
}

// The state that a text spells after what is kept.
fn decode_live(
    alloc: Global,
    setup: &ReadingSetup,
    kept: KeptText,
    text: &[u8],
) -> Result<RunState, StateFault>
    requires { readings.IsResumable kept }
    ensures kept { IfOk result (λ s. s.kept ≡ Some kept) }
    ensures valid { IfOk result (λ s. valid.IsState s.state) }
    ensures fit { IfOk result (λ s. IsKeptOf setup.now kept s.state) }
    ensures spelled { IfOk result (λ s. text.now ≡ live.spelled s.state) }
    ensures only { (s : LiveStateParts) → valid.IsState s → IsKeptOf setup.now kept s → valid.IsInRange s → text.now ≡ live.spelled s
        → IfOk result (λ found. found ≡ record { state = s; kept = Some kept }) }
    ensures none { IfErr result (λ fault. fault ≡ StateFault.NotAState
        → (s : LiveStateParts) → valid.IsState s → IsKeptOf setup.now kept s → valid.IsInRange s → ¬ (text.now ≡ live.spelled s)) }
{
    let state = match decode(alloc, text) {
        Ok(decoded) => decoded.state,
        Err(fault) => return Err(fault),
    };
    if !fits(setup, &kept, &state) {
        return Err(StateFault::NotAState);
    }
    Ok(of_readings(state, kept))
}

// The state of a run over rows.
fn of_rows(state: LiveState) -> RunState
    ensures { result ≡ record { state = state; kept = None } }
{
    RunState { state, kept: None }
}

// The state of a run over readings.
fn of_readings(state: LiveState, kept: KeptText) -> RunState
    ensures { result ≡ record { state = state; kept = Some kept } }
{
    RunState {
        state,
        kept: Some(kept),
    }
}

// Whether what is kept is that of a text of readings with this setup, and nothing is asked of watermarks. Then they hold nothing.
fn fits(setup: &ReadingSetup, kept: &KeptText, state: &LiveState) -> bool
    requires resumable { readings.IsResumable kept.now }
    requires valid { valid.IsState state.now }
    ensures { IsTrue result ↔ IsKeptOf setup.now kept.now state.now }
{
    has_inputs(setup, kept) && asks_nothing(state)
}

// Whether as many inputs are kept as the setup has.
fn has_inputs(setup: &ReadingSetup, kept: &KeptText) -> bool
    ensures { IsTrue result ↔ (length kept.now.readings.inputs ≡ length setup.now.options) }
{
    kept.readings.inputs.len() == setup.options().len()
}

// Whether nothing is asked of watermarks.
fn asks_nothing(state: &LiveState) -> bool
    ensures { IsTrue result ↔ (state.now.progress.options ≡ no_options) }
{
    state.progress.options == NO_OPTIONS
}
