// The zone of local times.
ghost use Rattle.std.specs.Prelude.{◌≡◌};
ghost use Rattle.std.specs.List.{list_all};
ghost use Rattle.tilt_reading_options.specs.Results.{Says};
ghost use Rattle.tilt_reading_options.specs.Texts.{given};
ghost use Rattle.tilt_reading_options.specs.ZoneChoice.{fold_said, is_zone_byte, is_zone_name, zone_said, zone_with};

use crate::fault::ChoiceFault;
use crate::reading_option::ReadingOption;
use crate::words::find_fold;
use std::alloc::Global;
use std::marker::Model;
use tilt_zones::Fold;

/// The name of a zone, and which moment a local time means that its clocks skip or show twice. A clause sees it as plain data.
#[derive(Drop)]
pub struct ZoneChoice {
    name: String,
    fold: Option<Fold>,
}

impl Model for ZoneChoice {
    ghost use Rattle.std.specs.Prelude.{string_bytes};
    ghost use Rattle.tilt_reading_options.specs.Values.{ZoneChoiceValue};

    ghost Value = { ZoneChoiceValue };

    ghost view = { λ z. record { name = string_bytes z.name; fold = z.fold } };
}

impl ZoneChoice {
    /// The name of the zone.
    pub fn name(&self) -> &str
        ensures { result.now ≡ self.now.name }
    {
        &self.name
    }

    /// Which moment is meant.
    pub fn fold(&self) -> Option<Fold>
        ensures { result ≡ self.now.fold }
    {
        self.fold
    }
}

// The zone that the texts of a unit, a zone and a fold say, if there is one.
pub(crate) fn read_zone_choice(
    alloc: Global,
    unit: &Option<String>,
    name: &Option<String>,
    fold: &Option<String>,
) -> Result<Option<ZoneChoice>, ChoiceFault>
    ensures { Says (λ zone. zone) result (zone_said (given unit.now) (given name.now) (given fold.now)) }
{
    let Some(name) = name else {
        return match fold {
            Some(_) => Err(ChoiceFault::Bad {
                option: ReadingOption::Fold,
            }),
            None => Ok(None),
        };
    };
    if unit.is_some() || !is_zone_name(name.as_bytes()) {
        return Err(ChoiceFault::Bad {
            option: ReadingOption::Zone,
        });
    }
    choose_zone(alloc, name, read_fold(fold))
}

// The zone with a name, by what its fold is.
fn choose_zone(
    alloc: Global,
    name: &str,
    fold: Result<Option<Fold>, ReadingOption>,
) -> Result<Option<ZoneChoice>, ChoiceFault>
    ensures { Says (λ zone. zone) result (zone_with name.now fold) }
{
    match fold {
        Ok(fold) => Ok(Some(ZoneChoice {
            name: String::from_str(alloc, name)?,
            fold,
        })),
        Err(option) => Err(ChoiceFault::Bad { option }),
    }
}

// Which moment is meant.
fn read_fold(text: &Option<String>) -> Result<Option<Fold>, ReadingOption>
    ensures { result ≡ fold_said (given text.now) }
{
    match text {
        Some(text) => match find_fold(text.as_bytes()) {
            Some(fold) => Ok(Some(fold)),
            None => Err(ReadingOption::Fold),
        },
        None => Ok(None),
    }
}

// Whether a text can be the name of a zone.
fn is_zone_name(text: &[u8]) -> bool
    ensures { result ≡ is_zone_name text.now }
{
    match text {
        [] => false,
        [first, ..] => *first != b'/' && are_zone_bytes(text),
    }
}

// Whether each byte can be in the name of a zone.
fn are_zone_bytes(text: &[u8]) -> bool
    ensures { result ≡ list_all is_zone_byte text.now }
{
    text.iter().all(|byte| is_zone_byte(*byte))
}

// Whether a byte can be in the name of a zone.
fn is_zone_byte(byte: u8) -> bool
    ensures { result ≡ is_zone_byte byte }
{
    byte.is_ascii_alphabetic()
        || byte.is_ascii_digit()
        || byte == b'_'
        || byte == b'+'
        || byte == b'-'
        || byte == b'/'
}
