// What was left of a feed, taken by an engine as events.
ghost use Rattle.std.specs.Prelude.{◌≡◌, ◌≤◌, ◌++◌, ℕ, length, OnOk};
ghost use Rattle.std.specs.List.{AllByRecursion};
ghost use Rattle.tilt_code.specs.Code.{CodeParts};
ghost use Rattle.tilt_engine.specs.Engines.{IsEngineOf, room_of};
ghost use Rattle.tilt_feed.specs.Events.{after, after_all};
ghost use Rattle.tilt_feed.specs.Feed.{Feed};
ghost use Rattle.tilt_feed.specs.Laws.{IsInOrder};
ghost use Rattle.tilt_live.specs.Resuming.{end_events};
ghost use Rattle.tilt_resume.specs.Restoring.{all_events, edge_events, input_events, row_events, row_update};

use std::alloc::AllocError as OutOfMemory;
use tilt_engine::{Engine, TakeError};
use tilt_feed::{Edge, Event, Update};
use tilt_input_state::InputState;
use tilt_stream::Row;

// Has an engine take what is known of its inputs, and then the end of the feed if it is finished.
pub(crate) fn restore(
    engine: &mut Engine,
    inputs: &[InputState],
    finished: bool,
) -> Result<(), OutOfMemory>
    requires { length inputs.now ≤ 256 }
    ensures engine { (code : CodeParts) (feed : Feed) (given : ℕ) → IsEngineOf engine.old code feed given
        → OnOk result (IsEngineOf engine.new code (after_all (all_events 0 inputs.now ++ end_events finished) feed) given) }
    ensures order { OnOk result (AllByRecursion IsInOrder inputs.now) }
    ensures room { room_of engine.new ≡ room_of engine.old }
{
    restore_inputs(engine, inputs)?;
    if finished {
        take_event(engine, Event::Finish)?;
    }
    Ok(())
}

// Has it take what is known of each input.
fn restore_inputs(engine: &mut Engine, inputs: &[InputState]) -> Result<(), OutOfMemory>
    requires { length inputs.now ≤ 256 }
    ensures engine { (code : CodeParts) (feed : Feed) (given : ℕ) → IsEngineOf engine.old code feed given
        → OnOk result (IsEngineOf engine.new code (after_all (all_events 0 inputs.now) feed) given) }
    ensures order { OnOk result (AllByRecursion IsInOrder inputs.now) }
    ensures room { room_of engine.new ≡ room_of engine.old }
{
    let mut number = 0;
    for input in inputs {
        restore_rows(engine, number, input.rows())?;
        restore_edge(engine, number, input.edge())?;
        number += 1;
    }
    Ok(())
}

// Has it take closed rows of the input with a number.
fn restore_rows(engine: &mut Engine, number: u32, rows: &[Row]) -> Result<(), OutOfMemory>
    ensures engine { (code : CodeParts) (feed : Feed) (given : ℕ) → IsEngineOf engine.old code feed given
        → OnOk result (IsEngineOf engine.new code (after_all (row_events number rows.now) feed) given) }
    ensures room { room_of engine.new ≡ room_of engine.old }
{
    for row in rows {
        let update = row_update(*row);
        take_event(
            engine,
            Event::Input {
                input: number,
                update,
            },
        )?;
    }
    Ok(())
}

// A closed row as an update.
fn row_update(row: Row) -> Update
    ensures { result ≡ row_update row }
{
    Update::Row {
        start: row.start,
        end: row.end,
        value: row.value,
    }
}

// Has it take where what is known of the input with a number ends.
fn restore_edge(engine: &mut Engine, number: u32, edge: Edge) -> Result<(), OutOfMemory>
    ensures engine { (code : CodeParts) (feed : Feed) (given : ℕ) → IsEngineOf engine.old code feed given
        → OnOk result (IsEngineOf engine.new code (after_all (edge_events number edge) feed) given) }
    ensures room { room_of engine.new ≡ room_of engine.old }
{
    if let Some(row) = edge.open_row {
        let update = Update::Value {
            start: row.start,
            value: row.value,
        };
        take_event(
            engine,
            Event::Input {
                input: number,
                update,
            },
        )?;
    }
    let update = Update::KnownUpTo {
        watermark: edge.watermark,
    };
    take_event(
        engine,
        Event::Input {
            input: number,
            update,
        },
    )
}

// Has it take an event. One that isn't allowed changes nothing.
fn take_event(engine: &mut Engine, event: Event) -> Result<(), OutOfMemory>
    ensures engine { (code : CodeParts) (feed : Feed) (given : ℕ) → IsEngineOf engine.old code feed given
        → OnOk result (IsEngineOf engine.new code (after event feed) given) }
    ensures room { room_of engine.new ≡ room_of engine.old }
{
    match engine.take(event) {
        Ok(()) => Ok(()),
        Err(TakeError::Fault(_)) => Ok(()),
        Err(TakeError::OutOfMemory) => Err(OutOfMemory),
    }
}
