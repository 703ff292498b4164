// Memory for a feed.
ghost use Rattle.std.specs.Prelude.{◌≡◌, ◌≤◌, ◌<◌, ◌+◌, ◌*◌, ◌^◌, ◌++◌, [], ◌∷◌, length, map, true, vec_len, IfOk, OnOk};
ghost use Rattle.std.specs.Bool.{OnTrue};
ghost use Rattle.std.specs.List.{AllByRecursion};
ghost use Rattle.std.specs.Vec.{vec_capacity};
ghost use Rattle.tilt_conventions.specs.Laws.{HoldsATick};
ghost use Rattle.tilt_conventions.specs.Machine.{kept_by};
ghost use Rattle.tilt_conventions.specs.Resumable.{fits};
ghost use Rattle.tilt_reading_feed.specs.Kept.{inputs_with};
ghost use Rattle.tilt_reading_feed.specs.Laws.{HoldTicks};
ghost use Rattle.tilt_reading_feed.specs.Machine.{inputs_of};
ghost use Rattle.tilt_reading_feed.specs.Steps.{first_kept};

use std::alloc::{AllocError as OutOfMemory, Global};
use tilt_conventions::{Converter, KeptConverter, Options};
use tilt_feed::Event;

// A converter for each of the options.
pub(crate) fn make_converters(
    alloc: Global,
    options: &[Options],
) -> Result<Vec<Converter>, OutOfMemory>
    requires { HoldTicks options.now }
    ensures { IfOk result (λ converters. inputs_of converters.items ≡ map first_kept options.now) }
{
    let mut converters = Vec::new(alloc);
    for each in options {
        push_converter(*each, &mut converters)?;
    }
    Ok(converters)
}

// Appends a converter that took no turn yet.
fn push_converter(options: Options, converters: &mut Vec<Converter>) -> Result<(), OutOfMemory>
    requires { HoldsATick options.convention }
    ensures { OnOk result (inputs_of converters.new.items ≡ inputs_of converters.old.items ++ first_kept options ∷ []) }
{
    converters.push(Converter::new(options))?;
    Ok(())
}

// The converter of each input that keeps this.
pub(crate) fn resume_converters(
    alloc: Global,
    options: &[Options],
    inputs: &[KeptConverter],
) -> Result<Vec<Converter>, OutOfMemory>
    requires ages { HoldTicks options.now }
    requires each { length inputs.now ≡ length options.now }
    requires fit { AllByRecursion (λ kept. fits kept ≡ true) inputs.now }
    ensures { IfOk result (λ converters. inputs_of converters.items ≡ inputs_with options.now inputs.now) }
{
    let mut converters = Vec::new(alloc);
    for input in 0..inputs.len() {
        push_resumed(options[input], &inputs[input], &mut converters)?;
    }
    Ok(converters)
}

// Appends a converter that keeps this.
fn push_resumed(
    options: Options,
    kept: &KeptConverter,
    converters: &mut Vec<Converter>,
) -> Result<(), OutOfMemory>
    requires ages { HoldsATick options.convention }
    requires fit { fits kept.now ≡ true }
    ensures { OnOk result (inputs_of converters.new.items
        ≡ inputs_of converters.old.items ++ record { options = options; kept = kept.now } ∷ []) }
{
    converters.push(Converter::resume(options, kept))?;
    Ok(())
}

// What each converter keeps.
pub(crate) fn keep_converters(
    alloc: Global,
    converters: &[Converter],
) -> Result<Vec<KeptConverter>, OutOfMemory>
    ensures inputs { IfOk result (λ inputs. inputs.items ≡ map kept_by converters.now) }
    ensures fit { IfOk result (λ inputs. AllByRecursion (λ kept. fits kept ≡ true) inputs.items) }
{
    let mut inputs = Vec::new(alloc);
    for converter in converters {
        inputs.push(converter.kept())?;
    }
    Ok(inputs)
}

// Makes room for four events of each reading and of each input, and returns whether there is memory for them.
pub(crate) fn reserve_turns(readings: usize, inputs: usize, events: &mut Vec<Event>) -> bool
    ensures items { events.new.items ≡ events.old.items }
    ensures room { OnTrue result (vec_len events.new + 4 * readings + 4 * inputs ≤ vec_capacity events.new) }
{
    let Some(turns) = readings.checked_add(inputs) else {
        return false;
    };
    let Some(room) = turns.checked_mul(4) else {
        return false;
    };
    events.reserve(room).is_ok()
}
