// The parts of a form.
ghost use Rattle.std.specs.Prelude.{◌≡◌, ◌++◌, ◌∷◌, [], IfOk, OnOk, map};
ghost use Rattle.std.specs.Option.{option_or};
ghost use Rattle.tilt_reading_feed.specs.Laws.{HoldTicks};
ghost use Rattle.tilt_reading_options.specs.Choice.{nulls_said};
ghost use Rattle.tilt_reading_options.specs.Conventions.{convention_name};
ghost use Rattle.tilt_reading_options.specs.Form.{local_for, options_with};
ghost use Rattle.tilt_reading_options.specs.Parts.{first_missing};
ghost use Rattle.tilt_reading_options.specs.Results.{IsMissing};
ghost use Rattle.tilt_reading_options.specs.Scales.{input_with, missing_among};
ghost use Rattle.tilt_reading_options.specs.Texts.{given, parts_of};
ghost use Rattle.tilt_reading_options.specs.Values.{items_of};
ghost use Rattle.tilt_reading_lines.specs.Titles.{titles_of};

use crate::conventions::Conventions;
use crate::fault::FormFault;
use crate::named::check_all;
use crate::zone_choice::ZoneChoice;
use std::alloc::{AllocError as OutOfMemory, Global};
use tilt_conventions::{Options, Ties};
use tilt_input_scales::{InputScale, Scales};
use tilt_lexer::Name;
use tilt_reading_lines::{LocalRules, Source, Titles};
use tilt_zones::Zone;

/// Fails at the first name of a scale that is no input: `NoInput` has it. `OutOfMemory` comes if memory runs out, and for no other reason.
pub fn check_names(named: &[InputScale], inputs: &[Name]) -> Result<(), FormFault>
    ensures { IsMissing result (missing_among named.now inputs.now) }
{
    check_all(named, inputs)
}

// The same of scales, and then of ages and events.
pub(crate) fn check_inputs(
    scales: &Scales,
    conventions: &Conventions,
    inputs: &[Name],
) -> Result<(), FormFault>
    ensures { IsMissing result (option_or (missing_among scales.now.named inputs.now)
        (first_missing convention_name conventions.now.named inputs.now)) }
{
    check_all(scales.named(), inputs)?;
    check_all(conventions.named(), inputs)
}

// The sources of inputs with these names.
pub(crate) fn make_sources(
    alloc: Global,
    scales: &Scales,
    inputs: &[Name],
) -> Result<Vec<Source>, OutOfMemory>
    ensures { IfOk result (λ sources. sources.items ≡ map (input_with scales.now) inputs.now) }
{
    let mut sources = Vec::new(alloc);
    for at in 0..inputs.len() {
        push_source(scales, &inputs[at], &mut sources)?;
    }
    Ok(sources)
}

// Appends the source of an input.
fn push_source(scales: &Scales, name: &Name, sources: &mut Vec<Source>) -> Result<(), OutOfMemory>
    ensures { OnOk result (sources.new.items
        ≡ sources.old.items ++ input_with scales.now name.now ∷ []) }
{
    let scale = scales.find(name);
    sources.push(Source::new(name.copy()?, scale))?;
    Ok(())
}

// The options of inputs with these names.
pub(crate) fn make_options(
    alloc: Global,
    conventions: &Conventions,
    ties: Ties,
    inputs: &[Name],
) -> Result<Vec<Options>, OutOfMemory>
    ensures each { IfOk result (λ all. all.items ≡ map (options_with conventions.now ties) inputs.now) }
    ensures ages { IfOk result (λ all. HoldTicks all.items) }
{
    let mut all = Vec::new(alloc);
    for at in 0..inputs.len() {
        let convention = conventions.find(&inputs[at]);
        all.push(Options { convention, ties })?;
    }
    Ok(all)
}

// The texts without a value.
pub(crate) fn split_nulls(alloc: Global, text: &Option<String>) -> Result<Vec<Vec<u8>>, OutOfMemory>
    ensures { IfOk result (λ nulls. items_of nulls.items ≡ nulls_said (given text.now)) }
{
    match text {
        Some(text) => split_text(alloc, text),
        None => Ok(Vec::new(alloc)),
    }
}

// The parts of a text between its commas.
fn split_text(alloc: Global, text: &str) -> Result<Vec<Vec<u8>>, OutOfMemory>
    ensures { IfOk result (λ parts. items_of parts.items ≡ parts_of text.now) }
{
    let mut parts = Vec::new(alloc);
    for part in text.split(',') {
        push_part(alloc, part, &mut parts)?;
    }
    Ok(parts)
}

// Appends a part.
fn push_part(alloc: Global, part: &str, parts: &mut Vec<Vec<u8>>) -> Result<(), OutOfMemory>
    ensures { OnOk result (items_of parts.new.items ≡ items_of parts.old.items ++ part.now ∷ []) }
{
    parts.push(part.as_bytes().to_vec(alloc)?)?;
    Ok(())
}

// The rules for local times, by a zone whose table is there.
pub(crate) fn make_local(
    alloc: Global,
    zone: &Option<ZoneChoice>,
    table: &Option<Zone>,
) -> Result<Option<LocalRules>, OutOfMemory>
    ensures { IfOk result (λ local. local ≡ local_for zone.now table.now) }
{
    match (zone, table) {
        (Some(zone), Some(table)) => {
            let name = zone.name().as_bytes().to_vec(alloc)?;
            Ok(Some(LocalRules::new(table.copy(alloc)?, zone.fold(), name)))
        }
        _ => Ok(None),
    }
}

// The same titles.
pub(crate) fn copy_titles(titles: &Titles) -> Result<Titles, OutOfMemory>
    ensures { IfOk result (λ copied. titles_of copied ≡ titles_of titles.now) }
{
    match titles {
        Titles::Named { time, name, value } => Ok(Titles::Named {
            time: time.clone()?,
            name: name.clone()?,
            value: value.clone()?,
        }),
        Titles::OfInputs { time } => Ok(Titles::OfInputs {
            time: time.clone()?,
        }),
    }
}
