// From texts to scales.
ghost use Rattle.std.specs.Prelude.{◌≡◌, IfOk};
ghost use Rattle.std.specs.Option.{ForSome};
ghost use Rattle.tilt_input_scales.specs.Scales.{IsInputScale};
ghost use Rattle.tilt_reading_options.specs.Scales.{number_said, scale_in, scales_read, with_scale};

use crate::named::has_name;
use crate::part_reader::{PartReader, cut_name, cut_text, take_parts};
use crate::whole::read_whole;
use std::alloc::{AllocError as OutOfMemory, Global};
use tilt_input_scales::{InputScale, Scales};
use tilt_lexer::Name;

// The largest scale.
const GREATEST: u64 = 1_000_000_000_000_000_000;

// The scales that a text says, if it says some. In a text with names the others have the scale 1.
pub(crate) fn read_scales(alloc: Global, text: &str) -> Result<Option<Scales>, OutOfMemory>
    ensures { IfOk result (λ scales. scales ≡ scales_read text.now) }
{
    if let Some(others) = read_number(text) {
        return Ok(Some(Scales::new(alloc, others)));
    }
    let mut scales = Scales::new(alloc, 1);
    if take_parts(alloc, &ScaleParts, text, &mut scales)? {
        Ok(Some(scales))
    } else {
        Ok(None)
    }
}

// The number that a scale is.
fn read_number(text: &str) -> Option<u64>
    ensures value { result ≡ number_said text.now }
    ensures bounds { ForSome result IsInputScale }
{
    read_whole(text.as_bytes(), GREATEST)
}

// Reads the parts NAME=N of scales.
#[derive(Drop)]
struct ScaleParts;

impl PartReader<Scales> for ScaleParts {
    ghost with_part = { λ _. with_scale };

    fn take_part(
        &self,
        alloc: Global,
        part: &str,
        table: &mut Scales,
    ) -> Result<bool, OutOfMemory> {
        let Some(one) = read_scale(alloc, part)? else {
            return Ok(false);
        };
        if has_name(table.named(), &one.name) {
            return Ok(false);
        }
        table.push(one)?;
        Ok(true)
    }
}

// The scale that a part says.
fn read_scale(alloc: Global, part: &str) -> Result<Option<InputScale>, OutOfMemory>
    ensures said { IfOk result (λ one. one ≡ scale_in part.now) }
    ensures bounds { IfOk result (λ one. ForSome one (λ one. IsInputScale one.scale)) }
{
    let Some(scale) = read_number(cut_text(part)) else {
        return Ok(None);
    };
    match Name::read(alloc, cut_name(part).as_bytes())? {
        Some(name) => Ok(Some(InputScale { name, scale })),
        None => Ok(None),
    }
}
