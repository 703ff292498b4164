// What is kept of a feed of readings, read.
ghost use Rattle.std.specs.Prelude.{◌≡◌, [], ◌∷◌, ◌++◌, OnOk};
ghost use Rattle.tilt_reading_state.specs.Reading.{Gives, input_at, many_at, readings_at, with_one};

use crate::fault::KeptFault;
use crate::reader::Reader;
use std::alloc::{AllocError as OutOfMemory, Global};
use tilt_conventions::KeptConverter;
use tilt_reading_feed::KeptReadings;

// What is kept of a feed.
pub(crate) fn read_readings(
    alloc: Global,
    reader: &mut Reader<'_>,
) -> Result<KeptReadings, KeptFault>
    ensures { Gives (readings_at reader.old) (λ readings. (readings, reader.new)) result }
{
    let finished = reader.flag().ok_or(KeptFault::NotKept)?;
    let count = reader.place(b'\n').ok_or(KeptFault::NotKept)?;
    let inputs = read_inputs(alloc, reader, count)?;
    Ok(KeptReadings { inputs, finished })
}

// What is kept of so many inputs.
fn read_inputs(
    alloc: Global,
    reader: &mut Reader<'_>,
    count: usize,
) -> Result<Vec<KeptConverter>, KeptFault>
    ensures { Gives (many_at input_at count reader.old) (λ inputs. (inputs.items, reader.new)) result }
{
    let mut inputs = Vec::new(alloc);
    for _ in 0..count {
        push_input(&mut inputs, reader)?;
    }
    Ok(inputs)
}

// Adds what is kept of one input more.
fn push_input(inputs: &mut Vec<KeptConverter>, reader: &mut Reader<'_>) -> Result<(), KeptFault>
    ensures { Gives (with_one input_at (inputs.old.items, reader.old)) (λ _. (inputs.new.items, reader.new)) result }
{
    let input = reader.input().ok_or(KeptFault::NotKept)?;
    add(inputs, input)?;
    Ok(())
}

// Adds what is kept of an input.
fn add(inputs: &mut Vec<KeptConverter>, input: KeptConverter) -> Result<(), OutOfMemory>
    ensures { OnOk result (inputs.new.items ≡ inputs.old.items ++ input ∷ []) }
{
    inputs.push(input)?;
    Ok(())
}
