// The interval of an expression, or the first node of it that can leave 64 bits.
ghost use Rattle.std.specs.Prelude.{◌≡◌, ◌<◌, ◌+◌, ◌^◌, ℤ, Option};
ghost use Rattle.std.specs.Int.{int_gap};
ghost use Rattle.tilt_base.specs.Number.{within_64_bits};
ghost use Rattle.tilt_core.specs.CoreTree.{nodes, tree_of};
ghost use Rattle.tilt_magnitudes.specs.Interval.{only};
ghost use Rattle.tilt_magnitudes.specs.Magnitude.{Gives, interval_at, magnitude, narrowed};
ghost use Rattle.tilt_magnitudes.specs.Marks.{marks_in};
ghost use Rattle.tilt_units.specs.Scaling.{later};

use crate::arithmetic::{interval_reduced, interval1, interval2};
use crate::fault::MagnitudeFault;
use crate::interval::{Interval, WideInterval, hull, only, widen};
use crate::met::{Rate, snapshots_met};
use crate::overflow::Overflow;
use std::alloc::Global;
use tilt_core::{Core, Tree};
use tilt_units::Place;

/// The interval of an expression over sources within these intervals. Otherwise the first node that can leave 64 bits: operands come
/// before their operator, from left to right.
#[cycle(magnitude)]
pub(crate) fn magnitude(
    alloc: Global,
    rates: &[Rate],
    core: &Core,
    sources: &[Interval],
    place: Place,
    tree: &Tree,
) -> Result<Interval, MagnitudeFault>
    requires { place.node + nodes (tree_of tree.now) < 2 ^ 32 }
    ensures { Gives (λ i. i) result (magnitude (marks_in rates.now core.now.defs) sources.now place (tree_of tree.now)) }
{
    match tree {
        Tree::Const(number) => Ok(only(*number)),
        Tree::Read { source, .. } => Ok(interval_at(sources, *source)),
        Tree::Reduce {
            reducer,
            source,
            from,
            to,
        } => {
            let ticks = ticks_between(*from, *to);
            let most = snapshots_met(alloc, rates, core, ticks, *source)?;
            Ok(narrow(
                place,
                interval_reduced(*reducer, most, interval_at(sources, *source)),
            )?)
        }
        Tree::One(op, a) => {
            let a = magnitude(alloc, rates, core, sources, later(place, 1), a)?;
            Ok(narrow(place, interval1(*op, a))?)
        }
        Tree::Two(op, a, b) => {
            let second = later(place, 1 + nodes(a));
            let a = magnitude(alloc, rates, core, sources, later(place, 1), a)?;
            let b = magnitude(alloc, rates, core, sources, second, b)?;
            Ok(narrow(place, interval2(*op, a, b))?)
        }
        Tree::If(c, a, b) => {
            let second = later(place, 1 + nodes(c));
            let third = later(place, 1 + nodes(c) + nodes(a));
            magnitude(alloc, rates, core, sources, later(place, 1), c)?;
            let a = magnitude(alloc, rates, core, sources, second, a)?;
            let b = magnitude(alloc, rates, core, sources, third, b)?;
            Ok(narrow(place, hull(widen(a), widen(b)))?)
        }
    }
}

// The interval of a source.
fn interval_at(sources: &[Interval], source: u32) -> Interval
    ensures { result ≡ interval_at sources.now source }
{
    let place = source as usize;
    if place < sources.len() {
        sources[place]
    } else {
        only(0)
    }
}

// How many ticks a window has.
fn ticks_between(from: i64, to: i64) -> u64
    ensures { result ≡ int_gap from to }
{
    if from < to { to.abs_diff(from) } else { 0 }
}

// The interval of the expression at a place, if 64 bits hold both of its ends.
fn narrow(place: Place, bounds: WideInterval) -> Result<Interval, Overflow>
    ensures { result ≡ narrowed place bounds }
{
    match (number_within(bounds.low), number_within(bounds.high)) {
        (Some(low), Some(high)) => Ok(Interval { low, high }),
        _ => Err(Overflow { place, bounds }),
    }
}

// The number, if 64 bits hold it.
fn number_within(number: i128) -> Option<i64>
    ensures { result ≡ within_64_bits number }
{
    i64::try_from(number).ok()
}

// The place that is so many nodes later.
fn later(place: Place, count: u32) -> Place
    requires { place.node + count < 2 ^ 32 }
    ensures { result ≡ later place count }
{
    Place {
        definition: place.definition,
        node: place.node + count,
    }
}

// How many nodes an expression has.
fn nodes(tree: &Tree) -> u32
    requires { nodes (tree_of tree.now) < 2 ^ 32 }
    ensures { result ≡ nodes (tree_of tree.now) }
{
    match tree {
        Tree::Const(_) | Tree::Read { .. } | Tree::Reduce { .. } => 1,
        Tree::One(_, a) => 1 + nodes(a),
        Tree::Two(_, a, b) => 1 + nodes(a) + nodes(b),
        Tree::If(c, a, b) => 1 + nodes(c) + nodes(a) + nodes(b),
    }
}
