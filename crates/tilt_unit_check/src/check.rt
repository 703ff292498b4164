// The check of a query file in units.
ghost use Rattle.std.specs.Prelude.{◌≡◌, ◌<◌, Some, length, IfErr, IfOk, is_err, option_map};
ghost use Rattle.std.specs.List.{slice_get};
ghost use Rattle.tilt_outside.specs.Reads.{OnlyReads};
ghost use Rattle.tilt_unit_check.specs.Check.{HasChecked, IsChecked, IsNamed, IsNoCheck, IsSafe, IsUnchecked, items_of};
ghost use Rattle.tilt_unit_report.specs.IllScaled.{magnitudes_of};
ghost use Rattle.tilt_unit_report.specs.Report.{definition_name};
ghost use Rattle.tilt_unit_report.specs.declared.bound.InputBound.{InputBound};

use crate::fault::CheckFault;
use std::alloc::{AllocError as OutOfMemory, Global};
use tilt_core::Core;
use tilt_input_scales::Scales;
use tilt_outside::Shelf;
use tilt_reading_options::check_names;
use tilt_syntax::Query;
use tilt_unit_load::load_in_units;
use tilt_unit_report::{
    BoundFault, IllScaled, InputBound, MagnitudeReport, can_leave, definition_name,
    report_magnitudes,
};

/// What the check of a query file found.
#[derive(Debug, Drop)]
pub struct Checked {
    /// What is printed.
    pub text: Vec<u8>,
    /// The name of the first definition that can leave 64 bits, if one can: `emit` for what is emitted.
    pub can_leave: Option<Vec<u8>>,
}

/// Checks the query in units that the file of that name is, if its inputs have these scales and are within these bounds. An input without
/// a bound can have any numbers and any marks. The text of the result has the scales, the bounds of each definition, and the query over
/// whole numbers. If no definition is named in it, no operator and no reducer overflows on any rows within the bounds.
///
/// `Unloaded` comes if the file gives no query, with its first fault. Otherwise `NoInput` comes if a scale or a bound has a name that is no
/// input of the query. It has the first such name, of the scales before the bounds. `OutOfMemory` comes only if there was no memory.
pub fn check_in_units<'a, S: Shelf>(
    alloc: Global,
    shelf: &mut S,
    name: &'a str,
    scales: &Scales,
    bounds: &[InputBound],
) -> Result<Checked, CheckFault<'a>>
    requires { S.lends name.now }
    ensures checked { S.tells → IfOk result (λ found. IsChecked scales.now bounds.now (S.files shelf.old name.now) found) }
    ensures fault { IfErr result (λ why. IsUnchecked scales.now bounds.now S.tells name.now (S.files shelf.old name.now)
        (S.read_faults shelf.old) (S.read_faults shelf.new) why) }
    ensures rest { OnlyReads S.files S.read_faults S.save_faults S.takes shelf.old shelf.new }
{
    let loaded = load_in_units(alloc, shelf, name, scales, true)?;
    let core = loaded.accepted.core();
    check_core(alloc, &loaded.query, core, loaded.decimals, scales, bounds)
}

// Checks a query over whole numbers with this core and these decimals of its output.
fn check_core<'a>(
    alloc: Global,
    query: &Query,
    core: &Core,
    decimals: u8,
    scales: &Scales,
    bounds: &[InputBound],
) -> Result<Checked, CheckFault<'a>>
    ensures checked { IfOk result (λ found. HasChecked scales.now bounds.now query.now core.now decimals found) }
    ensures safe { IfOk result (λ found. IsSafe scales.now bounds.now core.now found) }
    ensures fault { IfErr result (λ why. IsNoCheck scales.now bounds.now core.now.inputs why) }
{
    check_names(scales.named(), core.inputs())?;
    let report = match report_magnitudes(alloc, query, core, decimals, scales, bounds) {
        Ok(report) => report,
        Err(BoundFault::UnknownInput { bound }) => return Err(unknown_at(bounds, bound)),
        Err(BoundFault::OutOfMemory) => return Err(CheckFault::from(OutOfMemory)),
    };
    let can_leave = name_of(alloc, core, &report.ill_scaled)?;
    Ok(Checked {
        text: report.text,
        can_leave,
    })
}

/// Whether a number of a query in units can leave 64 bits, if its inputs have these scales and are within these bounds. The core is that of
/// the query over whole numbers. `NoInput` comes if a scale or a bound has a name that is no input of the query. It has the first such
/// name, of the scales before the bounds. `Unloaded` comes only if there was no memory.
pub fn check_bounds<'a>(
    alloc: Global,
    core: &Core,
    scales: &Scales,
    bounds: &[InputBound],
) -> Result<bool, CheckFault<'a>>
    ensures can { IfOk result (λ can. can ≡ is_err (magnitudes_of core.now bounds.now)) }
    ensures fault { IfErr result (λ why. IsNoCheck scales.now bounds.now core.now.inputs why) }
{
    let named = scales.named();
    check_names(named, core.inputs())?;
    match can_leave(alloc, core, bounds) {
        Ok(can) => Ok(can),
        Err(BoundFault::UnknownInput { bound }) => Err(unknown_at(bounds, bound)),
        Err(BoundFault::OutOfMemory) => Err(CheckFault::from(OutOfMemory)),
    }
}

// The fault of the bound at a place, whose name is no input.
fn unknown_at<'a>(bounds: &[InputBound], place: usize) -> CheckFault<'a>
    requires { place < length bounds.now }
    ensures { (bound : InputBound) → slice_get bounds.now place ≡ Some bound → IsNamed bound.name result }
{
    match bounds[place].name.copy() {
        Ok(name) => CheckFault::NoInput(name),
        Err(_) => CheckFault::from(OutOfMemory),
    }
}

// The name of the definition that can leave 64 bits, if one can.
fn name_of(
    alloc: Global,
    core: &Core,
    ill_scaled: &Option<IllScaled>,
) -> Result<Option<Vec<u8>>, OutOfMemory>
    ensures { IfOk result (λ name. items_of name ≡ option_map (λ ill. definition_name core.now.names ill.definition) ill_scaled.now) }
{
    match ill_scaled {
        None => Ok(None),
        Some(ill) => {
            let name = definition_name(core.names(), ill.definition).to_vec(alloc)?;
            Ok(Some(name))
        }
    }
}
