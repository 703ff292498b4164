// The lines of a report.
ghost use Rattle.std.specs.Prelude.{◌≡◌, ◌+◌, ◌≤◌, ◌++◌, length, OnOk};
ghost use Rattle.std.specs.Fmt.{decimal};
ghost use Rattle.tilt_magnitudes.specs.Magnitude.{interval_at};
ghost use Rattle.tilt_unit_report.specs.Report.{bound_line, bound_lines, decimals_line, definition_name, lines_of, overflow_line};
ghost use Rattle.tilt_unit_report.specs.Report.{rate_line, scale_line, two_numbers};

use crate::bound::{InputBound, rate_named};
use crate::ill_scaled::IllScaled;
use std::alloc::AllocError as OutOfMemory;
use tilt_input_scales::Scales;
use tilt_lexer::Name;
use tilt_magnitudes::Interval;
use tilt_text::{put, put_number};

// Appends the lines of the scales of inputs.
pub(crate) fn put_scales(
    text: &mut Vec<u8>,
    scales: &Scales,
    names: &[Name],
) -> Result<(), OutOfMemory>
    ensures { OnOk result (text.new.items ≡ text.old.items ++ lines_of (scale_line scales.now) names.now) }
{
    for at in 0..names.len() {
        put_scale(text, scales, &names[at])?;
    }
    Ok(())
}

// Appends the line of the scale of an input.
fn put_scale(text: &mut Vec<u8>, scales: &Scales, name: &Name) -> Result<(), OutOfMemory>
    ensures { OnOk result (text.new.items ≡ text.old.items ++ scale_line scales.now name.now) }
{
    put(text, b"scale ")?;
    put(text, name.bytes())?;
    put(text, b" ")?;
    put_number(text, scales.find(name))?;
    put(text, b"\n")
}

// Appends the line of the decimals of the output.
pub(crate) fn put_decimals(text: &mut Vec<u8>, decimals: u8) -> Result<(), OutOfMemory>
    ensures { OnOk result (text.new.items ≡ text.old.items ++ decimals_line decimals) }
{
    put(text, b"decimals ")?;
    put_number(text, decimals)?;
    put(text, b"\n")
}

// Appends the lines of the rates of inputs.
pub(crate) fn put_rates(
    text: &mut Vec<u8>,
    bounds: &[InputBound],
    names: &[Name],
) -> Result<(), OutOfMemory>
    ensures { OnOk result (text.new.items ≡ text.old.items ++ lines_of (rate_line bounds.now) names.now) }
{
    for at in 0..names.len() {
        put_rate(text, bounds, &names[at])?;
    }
    Ok(())
}

// Appends the line of the rate of an input.
fn put_rate(text: &mut Vec<u8>, bounds: &[InputBound], name: &Name) -> Result<(), OutOfMemory>
    ensures { OnOk result (text.new.items ≡ text.old.items ++ rate_line bounds.now name.now) }
{
    let rate = rate_named(bounds, name);
    put(text, b"rate ")?;
    put(text, name.bytes())?;
    put(text, b" ")?;
    put_number(text, rate.marks)?;
    put(text, b" ")?;
    put_number(text, rate.ticks)?;
    put(text, b"\n")
}

// Appends the lines of the bounds of sources with these names, of which the first has a number.
pub(crate) fn put_bounds(
    text: &mut Vec<u8>,
    all: &[Interval],
    first: usize,
    names: &[Name],
) -> Result<(), OutOfMemory>
    requires { first + length names.now ≤ 256 }
    ensures { OnOk result (text.new.items ≡ text.old.items ++ bound_lines all.now first names.now) }
{
    for at in 0..names.len() {
        put_bound(text, names[at].bytes(), interval_at(all, first + at))?;
    }
    Ok(())
}

// Appends the line of the bounds of a source.
pub(crate) fn put_bound(
    text: &mut Vec<u8>,
    name: &[u8],
    interval: Interval,
) -> Result<(), OutOfMemory>
    ensures { OnOk result (text.new.items ≡ text.old.items ++ bound_line name.now interval) }
{
    put(text, b"bound ")?;
    put(text, name)?;
    put_two(text, i128::from(interval.low), i128::from(interval.high))
}

// The interval of a source.
pub(crate) fn interval_at(all: &[Interval], source: usize) -> Interval
    ensures { result ≡ interval_at all.now source }
{
    if source < all.len() {
        all[source]
    } else {
        Interval { low: 0, high: 0 }
    }
}

// Appends two numbers after blanks, and the end of a line.
fn put_two(text: &mut Vec<u8>, low: i128, high: i128) -> Result<(), OutOfMemory>
    ensures { OnOk result (text.new.items ≡ text.old.items ++ two_numbers low high) }
{
    put(text, b" ")?;
    put_number(text, low)?;
    put(text, b" ")?;
    put_number(text, high)?;
    put(text, b"\n")
}

// Appends the line of the first node that can leave 64 bits.
pub(crate) fn put_overflow(
    text: &mut Vec<u8>,
    names: &[Name],
    ill: &IllScaled,
) -> Result<(), OutOfMemory>
    ensures { OnOk result (text.new.items ≡ text.old.items ++ overflow_line names.now ill.now) }
{
    put(text, b"overflow ")?;
    put(text, definition_name(names, ill.definition))?;
    put(text, b" ")?;
    put_number(text, ill.statement)?;
    put_two(text, ill.bounds.low, ill.bounds.high)
}

/// The name of the definition with a number, if these are the names of all but the last one: `emit` for that one, which is emitted.
pub fn definition_name(names: &[Name], number: u32) -> &[u8]
    ensures { result.now ≡ definition_name names.now number }
{
    let place = number as usize;
    if place < names.len() {
        names[place].bytes()
    } else {
        b"emit"
    }
}
