// What options are set to.
ghost use Rattle.std.specs.Prelude.{◌≡◌, ◌≢◌, [], Some, MatchResult, option_map, string_bytes};
ghost use Rattle.tilt_cli.specs.Options.{IsValue, OptionValue, cuts_of, numbers_of, text_of, ticks_of, times_of, value_of};
ghost use Rattle.tilt_cli.specs.Upto.{upto_of};

use crate::fault::WordsFault;
use crate::number::{read_numbers, read_rising, read_ticks};
use crate::option_table::Shape;
use crate::upto::Upto;
use std::alloc::Global;

// What an option is set to.
#[derive(Drop)]
pub(crate) enum Value {
    Flag,
    Text(String),
    Times(Vec<i64>),
    Numbers(Vec<u32>),
    Cuts(Upto),
    Ticks(u64),
}

impl Value {
    // The value of this shape that the word spells.
    pub(crate) fn read(alloc: Global, shape: Shape, word: &str) -> Result<Value, WordsFault>
        ensures { MatchResult result
            (λ value. IsValue shape word.now (value_of value))
            (λ fault. fault ≡ WordsFault.Usage → (value : OptionValue) → ¬ (IsValue shape word.now value)) }
    {
        match shape {
            Shape::Flag => Err(WordsFault::Usage),
            Shape::Text => Ok(Value::Text(read_text(alloc, word)?)),
            Shape::Times => Ok(Value::Times(read_rising(alloc, word, 0)?)),
            Shape::RisingTimes => Ok(Value::Times(read_rising(alloc, word, 1)?)),
            Shape::Numbers => Ok(Value::Numbers(read_numbers(alloc, word)?)),
            Shape::Cuts => Ok(Value::Cuts(Upto::read(alloc, word)?)),
            Shape::Ticks => Ok(Value::Ticks(read_ticks(word).ok_or(WordsFault::Usage)?)),
        }
    }

    // The text, if it is one.
    pub(crate) fn into_text(self) -> Option<String>
        ensures { option_map (λ text. string_bytes text) result ≡ text_of (Some (value_of self)) }
    {
        match self {
            Value::Text(text) => Some(text),
            _ => None,
        }
    }

    // The cuts, if it is some.
    pub(crate) fn into_cuts(self) -> Option<Upto>
        ensures { option_map upto_of result ≡ cuts_of (Some (value_of self)) }
    {
        match self {
            Value::Cuts(upto) => Some(upto),
            _ => None,
        }
    }

    // The number of ticks, if it is one.
    pub(crate) fn ticks(&self) -> Option<u64>
        ensures { result ≡ ticks_of (Some (value_of self.now)) }
    {
        match self {
            Value::Ticks(ticks) => Some(*ticks),
            _ => None,
        }
    }

    // The times, and none if it is something else.
    pub(crate) fn into_times(self, alloc: Global) -> Vec<i64>
        ensures { result.items ≡ times_of (Some (value_of self)) }
    {
        match self {
            Value::Times(times) => times,
            _ => Vec::new(alloc),
        }
    }

    // The numbers, and none if it is something else.
    pub(crate) fn into_numbers(self, alloc: Global) -> Vec<u32>
        ensures { result.items ≡ numbers_of (Some (value_of self)) }
    {
        match self {
            Value::Numbers(numbers) => numbers,
            _ => Vec::new(alloc),
        }
    }
}

// The word, which must not be empty.
fn read_text(alloc: Global, word: &str) -> Result<String, WordsFault>
    ensures { MatchResult result
        (λ text. (string_bytes text ≡ word.now) × (word.now ≢ []))
        (λ fault. fault ≡ WordsFault.Usage → word.now ≡ []) }
{
    if word.is_empty() {
        return Err(WordsFault::Usage);
    }
    let text = String::from_str(alloc, word)?;
    Ok(text)
}
