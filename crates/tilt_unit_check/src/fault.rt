// Why a query file in units isn't checked.
use std::alloc::AllocError as OutOfMemory;
use tilt_lexer::Name;
use tilt_reading_options::FormFault;
use tilt_report::Fault;
use tilt_unit_load::UnitLoadFault;

/// Why a query file in units isn't checked.
#[derive(Drop)]
pub enum CheckFault<'a> {
    /// The file gives no query, or memory ran out.
    Unloaded(UnitLoadFault<'a>),
    /// A scale or a bound has this name, which is no input of the query.
    NoInput(Name),
}

impl<'a> From<UnitLoadFault<'a>> for CheckFault<'a> {
    ghost use Rattle.std.specs.Prelude.{◌≡◌};
    ghost use Rattle.tilt_unit_check.specs.declared.fault.CheckFault.TheVariants.{Unloaded};

    ghost from_gives = { λ fault why. why ≡ Unloaded fault };

    fn from(fault: UnitLoadFault<'a>) -> Self {
        CheckFault::Unloaded(fault)
    }
}

impl From<FormFault> for CheckFault<'_> {
    ghost use Rattle.tilt_unit_check.specs.Check.{IsOfForm};

    ghost from_gives = { λ fault why. IsOfForm fault why };

    fn from(fault: FormFault) -> Self {
        match fault {
            FormFault::NoInput { name } => CheckFault::NoInput(name),
            FormFault::OutOfMemory => CheckFault::from(OutOfMemory),
        }
    }
}

impl From<OutOfMemory> for CheckFault<'_> {
    ghost use Rattle.tilt_unit_check.specs.Check.{IsNoMemory};

    ghost from_gives = { λ _ why. IsNoMemory why };

    fn from(_: OutOfMemory) -> Self {
        CheckFault::Unloaded(UnitLoadFault::Shared(Fault::OutOfMemory))
    }
}
