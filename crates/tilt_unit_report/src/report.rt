// What is printed of a query in units.
ghost use Rattle.std.specs.Prelude.{◌≡◌, ◌++◌, List, None, Ok, Err, map, IfErr, IfOk, MatchResult, OnOk};
ghost use Rattle.tilt_magnitudes.specs.Law.{BoundInputs, everywhere};
ghost use Rattle.tilt_magnitudes.specs.Magnitude.{magnitudes};
ghost use Rattle.tilt_magnitudes.specs.Marks.{HaveRates};
ghost use Rattle.tilt_stream.specs.Snap.{Snapshot};
ghost use Rattle.tilt_stream.specs.Stream.{stream_of};
ghost use Rattle.tilt_unit_report.specs.Bound.{IsBoundFault, rates_for, unknown_bound, values_for};
ghost use Rattle.tilt_unit_report.specs.IllScaled.{ill_scaled, ill_scaled_of, magnitudes_of};
ghost use Rattle.tilt_unit_report.specs.Report.{input_lines, magnitude_lines, query_lines, report_text, source_lines};
ghost use Rattle.tilt_units.specs.Law.{QueryStaysWithin};

use crate::bound::{InputBound, rates_of, unknown_bound, values_of};
use crate::fault::BoundFault;
use crate::ill_scaled::{IllScaled, statement_of};
use crate::text::{
    interval_at, put_bound, put_bounds, put_decimals, put_overflow, put_rates, put_scales,
};
use std::alloc::{AllocError as OutOfMemory, Global};
use tilt_core::Core;
use tilt_input_scales::Scales;
use tilt_magnitudes::{
    Interval, MagnitudeFault, Overflow, Rate, magnitudes, values_stay_within_bounds,
};
use tilt_syntax::{Query, print};
use tilt_text::put;

/// What is printed of a query, and whether it is ill-scaled.
#[derive(Debug, Drop)]
pub struct MagnitudeReport {
    /// What is printed.
    pub text: Vec<u8>,
    /// The first node that can leave 64 bits.
    pub ill_scaled: Option<IllScaled>,
}

/// What is printed of a query over whole numbers with this core, if its output has so many decimals, and its inputs have these scales and
/// are within these bounds. An input without a bound can have any numbers and any marks. If the report has no ill-scaled statement, no
/// operator and no reducer overflows on any rows within the bounds. The error is the first bound of a name that no input has.
/// `OutOfMemory` comes only if there was no memory.
pub fn report_magnitudes(
    alloc: Global,
    query: &Query,
    core: &Core,
    decimals: u8,
    scales: &Scales,
    bounds: &[InputBound],
) -> Result<MagnitudeReport, BoundFault>
    ensures text { IfOk result (λ report. report.text.items ≡ report_text query.now core.now decimals scales.now bounds.now) }
    ensures ill_scaled { IfOk result (λ report. report.ill_scaled ≡ ill_scaled query.now (magnitudes_of core.now bounds.now)) }
    // What no ill-scaled statement means.
    ensures safe { IfOk result (λ report. report.ill_scaled ≡ None → (rows : List (List Snapshot))
        → BoundInputs (values_for bounds.now core.now.inputs) rows → HaveRates (rates_for bounds.now core.now.inputs) rows
        → QueryStaysWithin everywhere (map stream_of rows) core.now.defs) }
    ensures known { IfOk result (λ _. unknown_bound core.now.inputs 0 bounds.now ≡ None) }
    ensures fault { IfErr result (λ fault. IsBoundFault (unknown_bound core.now.inputs 0 bounds.now) fault) }
{
    values_stay_within_bounds();
    if let Some(bound) = unknown_bound(core.inputs(), bounds) {
        return Err(BoundFault::UnknownInput { bound });
    }
    Ok(report_of(alloc, query, core, decimals, scales, bounds)?)
}

// The same if each bound is of an input.
fn report_of(
    alloc: Global,
    query: &Query,
    core: &Core,
    decimals: u8,
    scales: &Scales,
    bounds: &[InputBound],
) -> Result<MagnitudeReport, OutOfMemory>
    ensures text { IfOk result (λ report. report.text.items ≡ report_text query.now core.now decimals scales.now bounds.now) }
    ensures ill_scaled { IfOk result (λ report. report.ill_scaled ≡ ill_scaled query.now (magnitudes_of core.now bounds.now)) }
{
    let values = values_of(alloc, bounds, core.inputs())?;
    let rates = rates_of(alloc, bounds, core.inputs())?;
    let mut text = Vec::new(alloc);
    put_inputs(&mut text, core, decimals, scales, bounds)?;
    put_bounds(&mut text, &values, 0, core.inputs())?;
    let ill_scaled = put_magnitudes(alloc, &mut text, query, core, &values, &rates)?;
    put_query(alloc, &mut text, query)?;
    Ok(MagnitudeReport { text, ill_scaled })
}

// Appends the lines of what is given.
fn put_inputs(
    text: &mut Vec<u8>,
    core: &Core,
    decimals: u8,
    scales: &Scales,
    bounds: &[InputBound],
) -> Result<(), OutOfMemory>
    ensures { OnOk result (text.new.items ≡ text.old.items ++ input_lines core.now.inputs decimals scales.now bounds.now) }
{
    put_scales(text, scales, core.inputs())?;
    put_decimals(text, decimals)?;
    put_rates(text, bounds, core.inputs())
}

// Appends the bounds of the definitions, or the first node that can leave 64 bits, and says which.
fn put_magnitudes(
    alloc: Global,
    text: &mut Vec<u8>,
    query: &Query,
    core: &Core,
    values: &[Interval],
    rates: &[Rate],
) -> Result<Option<IllScaled>, OutOfMemory>
    ensures text { IfOk result (λ _. text.new.items ≡ text.old.items
        ++ magnitude_lines query.now core.now (magnitudes values.now rates.now core.now.defs)) }
    ensures ill_scaled { IfOk result (λ found. found ≡ ill_scaled query.now (magnitudes values.now rates.now core.now.defs)) }
{
    match find_magnitudes(alloc, core, values, rates)? {
        Ok(all) => {
            put_sources(text, core, &all)?;
            Ok(None)
        }
        Err(overflow) => {
            let ill_scaled = ill_scaled_of(query, overflow);
            put_overflow(text, core.names(), &ill_scaled)?;
            Ok(Some(ill_scaled))
        }
    }
}

// The intervals of all sources, or the first node that can leave 64 bits.
pub(crate) fn find_magnitudes(
    alloc: Global,
    core: &Core,
    values: &[Interval],
    rates: &[Rate],
) -> Result<Result<Vec<Interval>, Overflow>, OutOfMemory>
    ensures { IfOk result (λ found. MatchResult found (λ all. magnitudes values.now rates.now core.now.defs ≡ Ok all.items)
        (λ overflow. magnitudes values.now rates.now core.now.defs ≡ Err overflow)) }
{
    match magnitudes(alloc, values, rates, core) {
        Ok(all) => Ok(Ok(all)),
        Err(MagnitudeFault::CanOverflow(overflow)) => Ok(Err(overflow)),
        Err(MagnitudeFault::OutOfMemory) => Err(OutOfMemory),
    }
}

// An overflow with its statement.
fn ill_scaled_of(query: &Query, overflow: Overflow) -> IllScaled
    ensures { result ≡ ill_scaled_of query.now overflow }
{
    let definition = overflow.place.definition;
    IllScaled {
        definition,
        statement: statement_of(query, definition),
        bounds: overflow.bounds,
    }
}

// Appends the lines of the bounds of all definitions.
fn put_sources(text: &mut Vec<u8>, core: &Core, all: &[Interval]) -> Result<(), OutOfMemory>
    ensures { OnOk result (text.new.items ≡ text.old.items ++ source_lines core.now all.now) }
{
    put_bounds(text, all, core.inputs().len(), core.names())?;
    put_bound(text, b"emit", interval_at(all, core.emitted() as usize))
}

// Appends the query.
fn put_query(alloc: Global, text: &mut Vec<u8>, query: &Query) -> Result<(), OutOfMemory>
    ensures { OnOk result (text.new.items ≡ text.old.items ++ query_lines query.now) }
{
    let lines = print(alloc, query)?;
    put(text, b"query\n")?;
    put(text, &lines)
}
