// Why a feed isn't begun, and how that is reported.
ghost use Rattle.std.specs.Prelude.{◌≡◌, ℕ};
ghost use Rattle.tilt_live_app.specs.BeginReport.{begin_report, line_of_begin, status_of_begin};
ghost use Rattle.tilt_serving.specs.Reported.{Reported};

use crate::folder_end::report_fault;
use crate::named_line::put_line;
use tilt_lexer::Name;
use tilt_outside::Sink;
use tilt_reading_options::FormFault;
use tilt_report::Fault;
use tilt_unit_check::CheckFault;
use tilt_unit_load::UnitLoadFault;

// Why a feed isn't begun.
#[derive(Drop)]
pub(crate) enum Unbegun<'a> {
    // By a fault of all commands.
    Shared(Fault<'a>),
    // By a fault of a query in units.
    InUnits(UnitLoadFault<'a>),
    // The option `--scale` or `--bounds` has this name, which is no input of the query.
    NoInput(Name),
    // The zone of this name has no table, or its file couldn't be read.
    NoZone(&'a str),
}

impl<'a> From<Fault<'a>> for Unbegun<'a> {
    ghost use Rattle.std.specs.Prelude.{◌≡◌};
    ghost use Rattle.tilt_live_app.specs.declared.unbegun.Unbegun.TheVariants.{Shared};

    ghost from_gives = { λ fault why. why ≡ Shared fault };

    fn from(fault: Fault<'a>) -> Self {
        Unbegun::Shared(fault)
    }
}

impl<'a> From<UnitLoadFault<'a>> for Unbegun<'a> {
    ghost use Rattle.std.specs.Prelude.{◌≡◌};
    ghost use Rattle.tilt_live_app.specs.declared.unbegun.Unbegun.TheVariants.{InUnits};

    ghost from_gives = { λ fault why. why ≡ InUnits fault };

    fn from(fault: UnitLoadFault<'a>) -> Self {
        Unbegun::InUnits(fault)
    }
}

impl From<FormFault> for Unbegun<'_> {
    ghost use Rattle.std.specs.Prelude.{◌≡◌};
    ghost use Rattle.tilt_live_app.specs.BeginReport.{begin_report, report_of_form};

    ghost from_gives = { λ fault why. begin_report why ≡ report_of_form fault };

    fn from(fault: FormFault) -> Self {
        match fault {
            FormFault::NoInput { name } => Unbegun::NoInput(name),
            FormFault::OutOfMemory => Unbegun::Shared(Fault::OutOfMemory),
        }
    }
}

impl<'a> From<CheckFault<'a>> for Unbegun<'a> {
    ghost use Rattle.std.specs.Prelude.{◌≡◌};
    ghost use Rattle.tilt_live_app.specs.BeginReport.{begin_report, report_of_check};

    ghost from_gives = { λ fault why. begin_report why ≡ report_of_check fault };

    fn from(fault: CheckFault<'a>) -> Self {
        match fault {
            CheckFault::Unloaded(fault) => Unbegun::InUnits(fault),
            CheckFault::NoInput(name) => Unbegun::NoInput(name),
        }
    }
}

// Reports why a feed isn't begun, and returns the status.
pub(crate) fn report_unbegun<E: Sink>(err: &mut E, why: &Unbegun<'_>) -> u8
    requires { (n : ℕ) → E.takes err.old n }
    ensures status { result ≡ status_of_begin (begin_report why.now) }
    ensures line { Reported E.tells E.written E.faults err.old err.new (line_of_begin (begin_report why.now)) }
{
    match why {
        Unbegun::Shared(fault) => report_fault(err, fault),
        Unbegun::InUnits(fault) => {
            // A fault of the sink changes nothing.
            let _ = fault.put(err);
            fault.status()
        }
        Unbegun::NoInput(name) => {
            // A fault of the sink changes nothing.
            let _ = put_line(err, b"tilt: 66 no input ", name.bytes());
            1
        }
        Unbegun::NoZone(name) => {
            // A fault of the sink changes nothing.
            let _ = put_line(err, b"tilt: 67 no zone ", name.as_bytes());
            1
        }
    }
}
