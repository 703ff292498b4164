// What is known of the inputs of a query.
ghost use Rattle.std.specs.Prelude.{◌≡◌, ◌++◌, ◌∷◌, [], IfOk, OnOk};
ghost use Rattle.tilt_unit_report.specs.Bound.{any_number, has_name, rate_named, rates_for, unknown_bound, values_for, values_named};

use std::alloc::{AllocError as OutOfMemory, Global};
use tilt_lexer::Name;
use tilt_magnitudes::{Interval, Rate};

/// What is known of the input with a name: its values are in the interval, as whole numbers, and its marks have the rate. A mark is
/// where a snapshot starts, and where one ends without another one that starts there.
#[derive(Debug, Drop)]
pub struct InputBound {
    pub name: Name,
    pub values: Interval,
    pub rate: Rate,
}

// The place of the first bound of a name that no input has.
pub(crate) fn unknown_bound(inputs: &[Name], bounds: &[InputBound]) -> Option<usize>
    ensures { result ≡ unknown_bound inputs.now 0 bounds.now }
{
    for at in 0..bounds.len() {
        if !has_name(inputs, &bounds[at].name) {
            return Some(at);
        }
    }
    None
}

// Whether one of the inputs has the name.
fn has_name(inputs: &[Name], name: &Name) -> bool
    ensures { result ≡ has_name inputs.now name.now }
{
    for at in 0..inputs.len() {
        if name.bytes() == inputs[at].bytes() {
            return true;
        }
    }
    false
}

// The intervals of the inputs with these names, in order.
pub(crate) fn values_of(
    alloc: Global,
    bounds: &[InputBound],
    names: &[Name],
) -> Result<Vec<Interval>, OutOfMemory>
    ensures { IfOk result (λ values. values.items ≡ values_for bounds.now names.now) }
{
    let mut values = Vec::new(alloc);
    for at in 0..names.len() {
        push_values(&mut values, values_named(bounds, &names[at]))?;
    }
    Ok(values)
}

// Adds one more.
fn push_values(values: &mut Vec<Interval>, one: Interval) -> Result<(), OutOfMemory>
    ensures { OnOk result (values.new.items ≡ values.old.items ++ one ∷ []) }
{
    values.push(one)?;
    Ok(())
}

// Their rates.
pub(crate) fn rates_of(
    alloc: Global,
    bounds: &[InputBound],
    names: &[Name],
) -> Result<Vec<Rate>, OutOfMemory>
    ensures { IfOk result (λ rates. rates.items ≡ rates_for bounds.now names.now) }
{
    let mut rates = Vec::new(alloc);
    for at in 0..names.len() {
        push_rate(&mut rates, rate_named(bounds, &names[at]))?;
    }
    Ok(rates)
}

// Adds one more.
fn push_rate(rates: &mut Vec<Rate>, one: Rate) -> Result<(), OutOfMemory>
    ensures { OnOk result (rates.new.items ≡ rates.old.items ++ one ∷ []) }
{
    rates.push(one)?;
    Ok(())
}

// The interval of the input with a name.
fn values_named(bounds: &[InputBound], name: &Name) -> Interval
    ensures { result ≡ values_named bounds.now name.now }
{
    for at in 0..bounds.len() {
        let bound = &bounds[at];
        if bound.name.bytes() == name.bytes() {
            return bound.values;
        }
    }
    any_number()
}

// Any number of 64 bits.
fn any_number() -> Interval
    ensures { result ≡ any_number }
{
    Interval {
        low: i64::MIN,
        high: i64::MAX,
    }
}

// The rate of the input with a name.
pub(crate) fn rate_named(bounds: &[InputBound], name: &Name) -> Rate
    ensures { result ≡ rate_named bounds.now name.now }
{
    for at in 0..bounds.len() {
        let bound = &bounds[at];
        if bound.name.bytes() == name.bytes() {
            return bound.rate;
        }
    }
    Rate { marks: 1, ticks: 1 }
}
