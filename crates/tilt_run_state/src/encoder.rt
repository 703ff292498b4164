// The spelling of a state.
ghost use Rattle.std.specs.Prelude.{◌≡◌, ◌++◌, OnOk};
ghost use Rattle.tilt_feed_form.specs.declared.feed_form.FeedForm.TheVariants.{Readings};
ghost use Rattle.tilt_live_state.specs.Spelling as live;
ghost use Rattle.tilt_run_state.specs.Spelling.{kept_lines, opening, spelled};

use crate::setup::put_setup;
use crate::state::RunState;
use std::alloc::{AllocError as OutOfMemory, Global};
use tilt_feed_form::{FeedForm, ReadingSetup};
use tilt_live_state;
use tilt_reading_state::encode_kept;
use tilt_reading_text::KeptText;
use tilt_text::put;

/// Appends the spelling of a state of a run over a feed in this form to a text, as `specs/Spelling` says it. If memory runs out, what was
/// there before is still there, and a part of the spelling may be after it.
pub fn encode(
    alloc: Global,
    form: &FeedForm,
    state: &RunState,
    text: &mut Vec<u8>,
) -> Result<(), OutOfMemory>
    ensures { OnOk result (text.new.items ≡ text.old.items ++ spelled form.now state.now) }
{
    put_opening(text, form)?;
    put_state(alloc, state, text)
}

/// Appends what the states of all runs over a feed in this form begin with.
pub fn put_opening(text: &mut Vec<u8>, form: &FeedForm) -> Result<(), OutOfMemory>
    ensures { OnOk result (text.new.items ≡ text.old.items ++ opening form.now) }
{
    match form {
        FeedForm::Rows { .. } => Ok(()),
        FeedForm::Readings { setup } => put_readings_opening(text, setup),
    }
}

/// Appends the spelling of a state without that beginning.
pub fn put_state(alloc: Global, state: &RunState, text: &mut Vec<u8>) -> Result<(), OutOfMemory>
    ensures { OnOk result (text.new.items ≡ text.old.items ++ (kept_lines state.now.kept ++ live.spelled state.now.state)) }
{
    put_kept(text, &state.kept)?;
    tilt_live_state::encode(alloc, &state.state, text)
}

// Appends what the states of runs over a feed of readings begin with.
pub(crate) fn put_readings_opening(
    text: &mut Vec<u8>,
    setup: &ReadingSetup,
) -> Result<(), OutOfMemory>
    ensures { OnOk result (text.new.items ≡ text.old.items ++ opening (Readings setup.now)) }
{
    put(text, b"tilt live 2\n")?;
    put_setup(text, setup)
}

// Appends what is kept of the text of a feed, if something is.
fn put_kept(text: &mut Vec<u8>, kept: &Option<KeptText>) -> Result<(), OutOfMemory>
    ensures { OnOk result (text.new.items ≡ text.old.items ++ kept_lines kept.now) }
{
    match kept {
        None => Ok(()),
        Some(kept) => encode_kept(kept, text),
    }
}
