// What a state has of inputs: joined from their rows and what their watermarks keep, and taken apart again.
ghost use Rattle.std.specs.Prelude.{◌≡◌, map, IfOk};
ghost use Rattle.std.specs.List.{AllByRecursion};
ghost use Rattle.tilt_feed.specs.Laws.{IsInOrder};
ghost use Rattle.tilt_live_run.specs.Joined.{bare, joined, rows_at};
ghost use Rattle.tilt_live_run.specs.Left.{kept_given};
ghost use Rattle.tilt_live_state.specs.State.{feed_of, waiting_of};
ghost use Rattle.tilt_stream.specs.Snap.{AreRows};

use std::alloc::{AllocError as OutOfMemory, Global};
use tilt_feed::Update;
use tilt_feed_form::KeptFeed;
use tilt_input_state::InputState as KnownInput;
use tilt_live_state::{InputState, LiveState, Progress};
use tilt_reading_text::KeptText;
use tilt_stream::{Row, Rows};
use tilt_watermarks::{KeptInput, KeptState};

// Of each input its rows, if some are known, and what its watermarks keep.
pub(crate) fn join_inputs(
    alloc: Global,
    known: &[KnownInput],
    kept: &[KeptInput],
) -> Result<Vec<InputState>, OutOfMemory>
    ensures { IfOk result (λ inputs. inputs.items ≡ joined 0 known.now kept.now) }
{
    let mut inputs = Vec::new(alloc);
    for input in kept {
        let rows = rows_at(alloc, known, inputs.len())?;
        inputs.push(join_input(alloc, rows, input)?)?;
    }
    Ok(inputs)
}

// The closed rows of the input with a number, or none if there is no such input.
fn rows_at(alloc: Global, known: &[KnownInput], number: usize) -> Result<Rows, OutOfMemory>
    ensures { IfOk result (λ rows. rows ≡ rows_at known.now number) }
{
    match known.get(number) {
        Some(input) => known_rows(alloc, input),
        None => Ok(Rows::new(alloc)),
    }
}

// The closed rows of an input.
fn known_rows(alloc: Global, input: &KnownInput) -> Result<Rows, OutOfMemory>
    ensures { IfOk result (λ rows. rows ≡ input.now.rows) }
{
    copy_rows(alloc, input.rows())
}

// A copy of rows.
fn copy_rows(alloc: Global, rows: &[Row]) -> Result<Rows, OutOfMemory>
    requires { AreRows rows.now }
    ensures { IfOk result (λ copy. copy ≡ rows.now) }
{
    let mut copy = Rows::new(alloc);
    copy.append(rows)?;
    Ok(copy)
}

// A copy of updates.
fn copy_updates(alloc: Global, updates: &[Update]) -> Result<Vec<Update>, OutOfMemory>
    ensures { IfOk result (λ copy. copy.items ≡ updates.now) }
{
    let mut copy = Vec::new(alloc);
    copy.extend_from_slice(updates)?;
    Ok(copy)
}

// Rows of an input, and what its watermarks keep.
fn join_input(alloc: Global, rows: Rows, kept: &KeptInput) -> Result<InputState, OutOfMemory>
    ensures { IfOk result (λ input. input ≡ record { rows = rows; edge = kept.now.edge; held = kept.now.held }) }
{
    let held = copy_updates(alloc, &kept.held)?;
    Ok(InputState {
        rows,
        edge: kept.edge,
        held,
    })
}

// What is known of each input.
pub(crate) fn known_inputs(
    alloc: Global,
    inputs: &[InputState],
) -> Result<Vec<KnownInput>, OutOfMemory>
    requires { AllByRecursion (λ input. IsInOrder (feed_of input)) inputs.now }
    ensures { IfOk result (λ known. known.items ≡ map feed_of inputs.now) }
{
    let mut known = Vec::new(alloc);
    for input in inputs {
        known.push(known_input(alloc, input)?)?;
    }
    Ok(known)
}

// What is known of an input.
fn known_input(alloc: Global, input: &InputState) -> Result<KnownInput, OutOfMemory>
    requires { IsInOrder (feed_of input.now) }
    ensures { IfOk result (λ known. known ≡ feed_of input.now) }
{
    let rows = copy_rows(alloc, input.rows.as_slice())?;
    let Some(known) = KnownInput::new(rows, input.edge) else {
        unreachable!()
    };
    Ok(known)
}

// What is known of each input, of which no update is held.
pub(crate) fn bare_inputs(
    alloc: Global,
    known: &[KnownInput],
) -> Result<Vec<InputState>, OutOfMemory>
    ensures { IfOk result (λ inputs. inputs.items ≡ map bare known.now) }
{
    let mut inputs = Vec::new(alloc);
    for input in known {
        inputs.push(bare_input(alloc, input)?)?;
    }
    Ok(inputs)
}

// The same of one.
fn bare_input(alloc: Global, known: &KnownInput) -> Result<InputState, OutOfMemory>
    ensures { IfOk result (λ input. input ≡ bare known.now) }
{
    Ok(InputState {
        rows: known_rows(alloc, known)?,
        edge: known.edge(),
        held: Vec::new(alloc),
    })
}

// What a state gives the text of a feed: what its watermarks keep, or what is kept of a text of readings.
pub(crate) fn kept_feed(
    alloc: Global,
    state: &LiveState,
    kept: Option<KeptText>,
) -> Result<KeptFeed, OutOfMemory>
    ensures { IfOk result (λ given. given ≡ kept_given (record { state = state.now; kept = kept })) }
{
    match kept {
        None => Ok(KeptFeed::Rows {
            kept: kept_state(alloc, state.progress, &state.inputs)?,
        }),
        Some(kept) => Ok(KeptFeed::Readings { kept }),
    }
}

// What the watermarks keep of inputs.
fn kept_state(
    alloc: Global,
    progress: Progress,
    inputs: &[InputState],
) -> Result<KeptState, OutOfMemory>
    ensures { IfOk result (λ kept. kept ≡ record {
      inputs = map waiting_of inputs.now;
      finished = progress.finished;
      greatest = progress.greatest;
      latest = progress.latest;
    }) }
{
    let inputs = kept_inputs(alloc, inputs)?;
    Ok(KeptState {
        inputs,
        finished: progress.finished,
        greatest: progress.greatest,
        latest: progress.latest,
    })
}

// What they keep of each.
fn kept_inputs(alloc: Global, inputs: &[InputState]) -> Result<Vec<KeptInput>, OutOfMemory>
    ensures { IfOk result (λ kept. kept.items ≡ map waiting_of inputs.now) }
{
    let mut kept = Vec::new(alloc);
    for input in inputs {
        kept.push(kept_input(alloc, input)?)?;
    }
    Ok(kept)
}

// What they keep of one.
fn kept_input(alloc: Global, input: &InputState) -> Result<KeptInput, OutOfMemory>
    ensures { IfOk result (λ kept. kept ≡ waiting_of input.now) }
{
    let held = copy_updates(alloc, &input.held)?;
    Ok(KeptInput {
        edge: input.edge,
        held,
    })
}
