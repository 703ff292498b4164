// What is kept of each input, read.
ghost use Rattle.std.specs.Prelude.{◌≡◌, [], ◌∷◌, ◌++◌, OnOk};
ghost use Rattle.tilt_checkpoint.specs.Reading.{follows, times};
ghost use Rattle.tilt_live_state.specs.Reading.{Gives, input_at, input_behind, may_follow, with_input, with_row, with_update};
ghost use Rattle.tilt_stream.specs.Snap.{last_end};

use crate::fault::StateFault;
use crate::head::Head;
use crate::reader::Reader;
use crate::state::InputState;
use std::alloc::{AllocError as OutOfMemory, Global};
use tilt_base::T;
use tilt_feed::Update;
use tilt_stream::{Row, Rows};

// What is kept of so many inputs.
pub(crate) fn read_inputs(
    alloc: Global,
    reader: &mut Reader<'_>,
    count: usize,
) -> Result<Vec<InputState>, StateFault>
    ensures { Gives (times with_input count ([], reader.old)) (λ inputs. (inputs.items, reader.new)) result }
{
    let mut inputs = Vec::new(alloc);
    for _ in 0..count {
        push_input(alloc, &mut inputs, reader)?;
    }
    Ok(inputs)
}

// Adds what is kept of one input more.
fn push_input(
    alloc: Global,
    inputs: &mut Vec<InputState>,
    reader: &mut Reader<'_>,
) -> Result<(), StateFault>
    ensures { Gives (with_input (inputs.old.items, reader.old)) (λ _. (inputs.new.items, reader.new)) result }
{
    let input = read_input(alloc, reader)?;
    add(inputs, input)?;
    Ok(())
}

// Adds what is kept of an input.
fn add(inputs: &mut Vec<InputState>, input: InputState) -> Result<(), OutOfMemory>
    ensures { OnOk result (inputs.new.items ≡ inputs.old.items ++ input ∷ []) }
{
    inputs.push(input)?;
    Ok(())
}

// What is kept of an input.
fn read_input(alloc: Global, reader: &mut Reader<'_>) -> Result<InputState, StateFault>
    ensures { Gives (input_at reader.old) (λ input. (input, reader.new)) result }
{
    let head = reader.head().ok_or(StateFault::NotAState)?;
    read_behind(alloc, reader, head)
}

// What is kept of an input, after its head.
fn read_behind(alloc: Global, reader: &mut Reader<'_>, head: Head) -> Result<InputState, StateFault>
    ensures { Gives (input_behind (head, reader.old)) (λ input. (input, reader.new)) result }
{
    let rows = read_rows(alloc, reader, head.rows)?;
    let held = read_updates(alloc, reader, head.held)?;
    Ok(InputState {
        rows,
        edge: head.edge,
        held,
    })
}

// So many rows.
fn read_rows(alloc: Global, reader: &mut Reader<'_>, count: u64) -> Result<Rows, StateFault>
    ensures { Gives (times with_row count ([], reader.old)) (λ rows. (rows, reader.new)) result }
{
    let mut rows = Rows::new(alloc);
    for _ in 0..count {
        push_row(&mut rows, reader)?;
    }
    Ok(rows)
}

// Adds one row more.
fn push_row(rows: &mut Rows, reader: &mut Reader<'_>) -> Result<(), StateFault>
    ensures { Gives (with_row (rows.old, reader.old)) (λ _. (rows.new, reader.new)) result }
{
    let row = reader.row().ok_or(StateFault::NotAState)?;
    if !may_follow(rows, row) {
        return Err(StateFault::NotAState);
    }
    rows.push(row)?;
    Ok(())
}

// Whether a row may follow others.
fn may_follow(rows: &Rows, row: Row) -> bool
    ensures { result ≡ may_follow rows.now row }
{
    -T <= row.start && follows(rows.last_end(), row.start) && row.end <= T
}

// So many updates.
fn read_updates(
    alloc: Global,
    reader: &mut Reader<'_>,
    count: u64,
) -> Result<Vec<Update>, StateFault>
    ensures { Gives (times with_update count ([], reader.old)) (λ updates. (updates.items, reader.new)) result }
{
    let mut updates = Vec::new(alloc);
    for _ in 0..count {
        push_update(&mut updates, reader)?;
    }
    Ok(updates)
}

// Adds one update more.
fn push_update(updates: &mut Vec<Update>, reader: &mut Reader<'_>) -> Result<(), StateFault>
    ensures { Gives (with_update (updates.old.items, reader.old)) (λ _. (updates.new.items, reader.new)) result }
{
    let update = reader.update().ok_or(StateFault::NotAState)?;
    add_update(updates, update)?;
    Ok(())
}

// Adds an update.
fn add_update(updates: &mut Vec<Update>, update: Update) -> Result<(), OutOfMemory>
    ensures { OnOk result (updates.new.items ≡ updates.old.items ++ update ∷ []) }
{
    updates.push(update)?;
    Ok(())
}

// Whether a tick isn't before an end, if there is one.
pub(crate) fn follows(end: Option<i64>, tick: i64) -> bool
    ensures { result ≡ follows end tick }
{
    match end {
        None => true,
        Some(end) => end <= tick,
    }
}
