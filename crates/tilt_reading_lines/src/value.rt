// From the text of a value to a reading.
ghost use Rattle.std.specs.Prelude.{◌≡◌, ◌<◌, map};
ghost use Rattle.std.specs.List.{list_any};
ghost use Rattle.std.specs.Str.{bytes_eq};
ghost use Rattle.tilt_reading_lines.specs.Lines.{is_null, reading_said, value_said};

use crate::fault::LineFault;
use crate::rules::{InputReading, Rules};
use tilt_base::Cell;
use tilt_readings::read_decimal;

// The reading of an input that a text is, if it is one.
pub(crate) fn read_reading(
    rules: &Rules,
    tick: i64,
    input: u32,
    scale: u64,
    text: &[u8],
) -> Result<Option<InputReading>, LineFault>
    requires { 0 < scale }
    ensures { result ≡ reading_said rules.now tick input scale text.now }
{
    if rules.skips_empty && is_null(&rules.nulls, text) {
        return Ok(None);
    }
    let value = read_value(rules, input, scale, text)?;
    Ok(Some(InputReading { input, tick, value }))
}

// The value of a text at a scale, which may be none.
fn read_value(rules: &Rules, input: u32, scale: u64, text: &[u8]) -> Result<Cell, LineFault>
    requires { 0 < scale }
    ensures { result ≡ value_said rules.now input scale text.now }
{
    if is_null(&rules.nulls, text) {
        return Ok(None);
    }
    match read_decimal(text, rules.mark, scale) {
        Ok(value) => Ok(Some(value)),
        Err(fault) => Err(LineFault::BadValue { input, fault }),
    }
}

// Whether a text means that there is no value.
fn is_null(nulls: &[Vec<u8>], text: &[u8]) -> bool
    ensures { result ≡ is_null (map (λ null. null.items) nulls.now) text.now }
{
    text.is_empty() || is_listed(nulls, text)
}

// Whether a text is among others.
fn is_listed(texts: &[Vec<u8>], text: &[u8]) -> bool
    ensures { result ≡ list_any (λ other. bytes_eq text.now other.items) texts.now }
{
    texts.iter().any(|other| text == other.as_slice())
}
