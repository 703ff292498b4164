// From a text in units to the query over whole numbers that it is.
ghost use Rattle.std.specs.Prelude.{◌≡◌, ◌^◌, ◌<◌, ◌++◌, List, All, IfOk, MatchResult, Ok, Result, map};
ghost use Rattle.tilt_lexer.specs.Tokens.{IsSound};
ghost use Rattle.tilt_syntax.specs.Query.{IsQueryOf, kinds};
ghost use Rattle.tilt_syntax.specs.Tree.{StatementTree};
ghost use Rattle.tilt_types.specs.Checked.{checked};
ghost use Rattle.tilt_unit_text.specs.Numbers.{IsWritten};
ghost use Rattle.tilt_unit_text.specs.Places.{counted, query_with};
ghost use Rattle.tilt_unit_text.specs.Points.{IsToken};
ghost use Rattle.tilt_unit_text.specs.Reading.{Gives, GivesAnswer, GivesReading, Reads};
ghost use Rattle.tilt_units.specs.Translation.{query_of, translated, unit_definition};
ghost use Rattle.tilt_unit_text.specs.Units.{UnitParts, checked_in_units, core_in_units, of_scale, parts_of, query_in_units, with_fault};
ghost use Rattle.tilt_unit_text.specs.declared.fault.UnitFault.{UnitFault};

use crate::definitions::unit_definitions;
use crate::fault::UnitFault;
use crate::noted::note_numbers;
use crate::places::{count_numbers, query_fault};
use crate::points::{fault_in_text, find_points, without_points};
use crate::scales::scales_of;
use crate::statement::of_scale;
use crate::unit_query::UnitQuery;
use crate::whole::{push_names, whole_query};
use crate::written::Written;
use std::alloc::{AllocError as OutOfMemory, Global};
use tilt_core::Core;
use tilt_input_scales::Scales;
use tilt_lexer::{Name, Token, lex};
use tilt_syntax::{Query, parse};
use tilt_types::check;
use tilt_units::{DecimalDef, Scale, Translated, translate};

/// The query over whole numbers that a text in units is, if its inputs have these scales; or the first fault. Of the first of these
/// causes there is a fault. `BadByte`, `BigNumber`: the text without its points has no tokens, at its first faulty place. `BadPoint`,
/// `ManyDecimals`: a point isn't between two digits of a number, or too many digits come after it, at the first point with a fault.
/// `Syntax`: the text without its points isn't a query. `TicksWithPoint`: a number of ticks has a point, in the order of statements.
/// `IllFormed`: the query isn't well formed. `Scale`: the query has no translation. `WholeTooLarge`: an expression has too many nodes
/// over whole numbers. `WholeTooLong`: a statement takes too many tokens over whole numbers. Scales of other names than the inputs' are
/// not read. Memory is taken for all tokens of the text.
pub fn read_in_units(alloc: Global, text: &[u8], scales: &Scales) -> Result<UnitQuery, UnitFault>
    ensures reads { GivesReading parts_of scales.now text.now result }

    // Nothing else is: no other query, and no other fault.
    ensures only { (answer : Result UnitParts UnitFault) → Reads scales.now text.now answer → Gives parts_of result answer }
{
    let points = find_points(alloc, text)?;
    let plain = without_points(alloc, text)?;
    match lex(alloc, &plain) {
        Err(fault) => Err(fault_in_text(&points, fault)),
        Ok(tokens) => answer(alloc, scales, &points, tokens),
    }
}

// The answer for the tokens of a text.
fn answer(
    alloc: Global,
    scales: &Scales,
    points: &[u64],
    tokens: Vec<Token>,
) -> Result<UnitQuery, UnitFault>
    requires small { All (IsToken 9223372036854775807) tokens.items }
    requires few { All (λ point. point < 2 ^ 63) points.now }
    requires sound { All (λ token. IsSound token.kind) tokens.items }
    ensures { GivesAnswer parts_of scales.now points.now tokens.items result }
{
    let numbers = note_numbers(alloc, &tokens, points)?;
    let query = parse(alloc, &tokens)?;
    let places = places_of(alloc, tokens)?;
    query_in_units(alloc, scales, &numbers, &query, &places)
}

// The query of the tokens, with each number as its count.
fn places_of(alloc: Global, tokens: Vec<Token>) -> Result<Query, UnitFault>
    requires sound { All (λ token. IsSound token.kind) tokens.items }
    requires is_query { (places : List StatementTree) × IsQueryOf (counted 0 (kinds tokens.items)) places }
    ensures { MatchResult result (λ places. IsQueryOf (counted 0 (kinds tokens.items)) places) (λ fault. fault ≡ UnitFault.OutOfMemory) }
{
    let counts = count_numbers(alloc, tokens)?;
    Ok(parse(alloc, &counts)?)
}

// What a query is over whole numbers.
fn query_in_units(
    alloc: Global,
    scales: &Scales,
    numbers: &[Written],
    query: &Query,
    places: &Query,
) -> Result<UnitQuery, UnitFault>
    requires written { All IsWritten numbers.now }
    requires placed { query_with numbers.now places.now ≡ query.now }
    ensures { Gives parts_of result (query_in_units scales.now numbers.now query.now places.now) }
{
    match query_fault(numbers, places.statements()) {
        Some(fault) => Err(fault),
        None => checked_in_units(alloc, scales, numbers, query, places),
    }
}

// What a query without a fault in its numbers of ticks is over whole numbers.
fn checked_in_units(
    alloc: Global,
    scales: &Scales,
    numbers: &[Written],
    query: &Query,
    places: &Query,
) -> Result<UnitQuery, UnitFault>
    requires written { All IsWritten numbers.now }
    requires placed { query_with numbers.now places.now ≡ query.now }
    ensures { Gives parts_of result (checked_in_units scales.now numbers.now query.now places.now) }
{
    let core = check(alloc, query)?;
    core_in_units(alloc, scales, numbers, query, places, &core)
}

// What a query with a core is over whole numbers, which with each number as its count is this.
fn core_in_units(
    alloc: Global,
    scales: &Scales,
    numbers: &[Written],
    query: &Query,
    places: &Query,
    core: &Core,
) -> Result<UnitQuery, UnitFault>
    requires written { All IsWritten numbers.now }
    requires placed { query_with numbers.now places.now ≡ query.now }
    requires checked { checked query.now ≡ Ok core.now }
    ensures { Gives parts_of result (core_in_units scales.now numbers.now query.now places.now core.now) }
{
    let parts = scales_of(alloc, scales, core.inputs())?;
    let names = source_names(alloc, core)?;
    let units = unit_definitions(alloc, &names, numbers, places.statements(), core.defs())?;
    let translated = translate_units(alloc, places, &parts, &units)?;
    whole_query(alloc, query, core, translated)
}

// The translation of definitions in units, of a query in which each number is its count.
fn translate_units(
    alloc: Global,
    places: &Query,
    parts: &[Scale],
    units: &[DecimalDef],
) -> Result<Translated, UnitFault>
    ensures { Gives query_of result (with_fault (of_scale places.now) (translated parts.now (map unit_definition units.now))) }
{
    match translate(alloc, parts, units) {
        Ok(translated) => Ok(translated),
        Err(fault) => Err(of_scale(places.statements(), fault)),
    }
}

// The names of the sources: the inputs in order, and after them the definitions that have names.
fn source_names(alloc: Global, core: &Core) -> Result<Vec<Name>, OutOfMemory>
    ensures { IfOk result (λ names. names.items ≡ core.now.inputs ++ core.now.names) }
{
    let mut names = Vec::new(alloc);
    push_names(&mut names, core.inputs())?;
    push_names(&mut names, core.names())?;
    Ok(names)
}
