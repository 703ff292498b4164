// The scales of inputs.
ghost use Rattle.std.specs.Prelude.{◌≡◌, [], ◌++◌, ◌∷◌, IfOk, OnOk};
ghost use Rattle.std.specs.List.{AllByRecursion};
ghost use Rattle.tilt_input_scales.specs.Scales.{scale_named};
ghost use Rattle.tilt_units.specs.Scale.{IsScale};
ghost use Rattle.tilt_unit_text.specs.Units.{scales_for};

use std::alloc::{AllocError as OutOfMemory, Global};
use tilt_input_scales::Scales;
use tilt_lexer::Name;
use tilt_units::Scale;

// The scales of inputs with these names, in order.
pub(crate) fn scales_of(
    alloc: Global,
    scales: &Scales,
    names: &[Name],
) -> Result<Vec<Scale>, OutOfMemory>
    ensures parts { IfOk result (λ parts. parts.items ≡ scales_for scales.now names.now) }
    ensures small { IfOk result (λ parts. AllByRecursion IsScale parts.items) }
{
    let mut parts = Vec::new(alloc);
    for at in 0..names.len() {
        push_scale(&mut parts, find_scale(scales, &names[at]))?;
    }
    Ok(parts)
}

// Adds one more scale.
fn push_scale(parts: &mut Vec<Scale>, scale: Scale) -> Result<(), OutOfMemory>
    requires { AllByRecursion IsScale parts.old.items }
    ensures items { OnOk result (parts.new.items ≡ parts.old.items ++ scale ∷ []) }
    ensures small { OnOk result (AllByRecursion IsScale parts.new.items) }
{
    prove!(scale.parts() > 0);
    parts.push(scale)?;
    Ok(())
}

// The scale of the input with a name.
fn find_scale(scales: &Scales, name: &Name) -> Scale
    ensures { result ≡ scale_named scales.now name.now }
{
    match Scale::new(scales.find(name)) {
        Some(scale) => scale,
        None => unreachable!(),
    }
}
