// From a text to what is known of inputs.
ghost use Rattle.std.specs.Prelude.{◌≡◌, ◌<◌, ◌==◌, IfOk, option_map, string_bytes};
ghost use Rattle.std.specs.List.{after_first, before_first};
ghost use Rattle.tilt_reading_options.specs.Parts.{has_name};
ghost use Rattle.tilt_unit_check.specs.BoundText.{bound_name, bound_of, bounds_read, bounds_said, count_said, interval_said, number_said};
ghost use Rattle.tilt_unit_check.specs.BoundText.{part_said, rate_or_any, rate_said, with_part};

use std::alloc::{AllocError as OutOfMemory, Global};
use std::marker::Model;
use tilt_input_scales::Scales;
use tilt_lexer::Name;
use tilt_magnitudes::{Interval, Rate};
use tilt_reading_options::{PartReader, cut_name, cut_text, read_whole, take_parts};
use tilt_readings::read_decimal;
use tilt_unit_report::InputBound;

// A mark at any tick.
const ANY_RATE: Rate = Rate { marks: 1, ticks: 1 };

/// What a text says of inputs that have these scales, as in `temperature=-50:150,pressure=0:20:1/60`. The numbers of each input are from a
/// low to a high end, which are decimals, whole at the scale of the input. Behind them `1/60` says that the input has at most 1 mark in any
/// 60 ticks; without it there can be a mark at any tick. Without a text nothing is said. The result is `None` if the text isn't of this
/// form, or has two bounds of one name. `OutOfMemory` comes if memory runs out, and for no other reason.
pub fn read_bounds(
    alloc: Global,
    scales: &Scales,
    text: &Option<String>,
) -> Result<Option<Vec<InputBound>>, OutOfMemory>
    ensures { IfOk result (λ bounds. option_map (λ all. all.items) bounds
        ≡ bounds_said scales.now (option_map (λ text. string_bytes text) text.now)) }
{
    match text {
        None => Ok(Some(Vec::new(alloc))),
        Some(text) => read_parts(alloc, scales, text),
    }
}

// The bounds that the parts of a text say, if each one says one, and no two are of one name.
fn read_parts(
    alloc: Global,
    scales: &Scales,
    text: &str,
) -> Result<Option<Vec<InputBound>>, OutOfMemory>
    ensures { IfOk result (λ bounds. option_map (λ all. all.items) bounds ≡ bounds_read scales.now text.now) }
{
    let mut table = BoundTable {
        bounds: Vec::new(alloc),
    };
    if take_parts(alloc, &BoundParts { scales }, text, &mut table)? {
        Ok(Some(table.bounds))
    } else {
        Ok(None)
    }
}

// Bounds, of which no two are of one name. A clause sees them as a list.
#[derive(Drop)]
struct BoundTable {
    bounds: Vec<InputBound>,
}

impl Model for BoundTable {
    ghost use Rattle.std.specs.Prelude.{List};
    ghost use Rattle.tilt_unit_report.specs.declared.bound.InputBound.{InputBound};

    ghost Value = { List InputBound };

    ghost view = { λ table. table.bounds.items };
}

// Reads the parts of bounds, of inputs with these scales.
#[derive(Drop)]
struct BoundParts<'s> {
    scales: &'s Scales,
}

impl PartReader<BoundTable> for BoundParts<'_> {
    ghost with_part = { λ reader. with_part reader.scales.now };

    fn take_part(
        &self,
        alloc: Global,
        part: &str,
        table: &mut BoundTable,
    ) -> Result<bool, OutOfMemory> {
        let Some(one) = read_part(alloc, self.scales, part)? else {
            return Ok(false);
        };
        if has_bound(&table.bounds, &one.name) {
            return Ok(false);
        }
        table.bounds.push(one)?;
        Ok(true)
    }
}

// Whether one of the bounds is of the input with a name.
fn has_bound(bounds: &[InputBound], name: &Name) -> bool
    ensures { result ≡ has_name bound_name bounds.now name.now }
{
    for at in 0..bounds.len() {
        if bounds[at].name.bytes() == name.bytes() {
            return true;
        }
    }
    false
}

// The bound that a part says.
fn read_part(alloc: Global, scales: &Scales, part: &str) -> Result<Option<InputBound>, OutOfMemory>
    ensures { IfOk result (λ one. one ≡ part_said scales.now part.now) }
{
    let Some(name) = Name::read(alloc, cut_name(part).as_bytes())? else {
        return Ok(None);
    };
    let scale = scales.find(&name);
    Ok(read_bound(name, scale, cut_text(part)))
}

// The bound of the input with a name, by what comes after the name.
fn read_bound(name: Name, scale: u64, text: &str) -> Option<InputBound>
    requires { 0 < scale }
    ensures { result ≡ bound_of name scale text.now }
{
    let (low, rest) = cut_at(text, ':');
    let (high, rate) = cut_at(rest, ':');
    let values = read_interval(scale, low, high)?;
    let rate = read_rate_or_any(rate)?;
    Some(InputBound { name, values, rate })
}

// The numbers from a low end to a high end.
fn read_interval(scale: u64, low: &str, high: &str) -> Option<Interval>
    requires { 0 < scale }
    ensures { result ≡ interval_said scale low.now high.now }
{
    let low = read_number(scale, low)?;
    let high = read_number(scale, high)?;
    if low <= high {
        Some(Interval { low, high })
    } else {
        None
    }
}

// The whole number that a decimal is at a scale.
fn read_number(scale: u64, text: &str) -> Option<i64>
    requires { 0 < scale }
    ensures { result ≡ number_said scale text.now }
{
    match read_decimal(text.as_bytes(), b'.', scale) {
        Ok(number) => Some(number),
        Err(_) => None,
    }
}

// The rate that a text says, if there is one.
fn read_rate_or_any(text: &str) -> Option<Rate>
    ensures { result ≡ rate_or_any text.now }
{
    if text.is_empty() {
        Some(ANY_RATE)
    } else {
        read_rate(text)
    }
}

// The rate that a text says.
fn read_rate(text: &str) -> Option<Rate>
    ensures { result ≡ rate_said text.now }
{
    let (marks, ticks) = cut_at(text, '/');
    let marks = read_count(marks)?;
    let ticks = read_count(ticks)?;
    Some(Rate { marks, ticks })
}

// A number of marks, or of ticks.
fn read_count(text: &str) -> Option<u64>
    ensures { result ≡ count_said text.now }
{
    read_whole(text.as_bytes(), i64::MAX as u64)
}

// What is before the first mark of a text, and what is after it. Without a mark, all is before it.
fn cut_at(text: &str, mark: char) -> (&str, &str)
    requires { mark < 128 }
    ensures before { result.0.now ≡ before_first (λ b. b == mark) text.now }
    ensures after { result.1.now ≡ after_first (λ b. b == mark) text.now }
{
    match text.split_once(mark) {
        Some(parts) => parts,
        None => (text, ""),
    }
}
