// How a fault of a query file in units is reported.
use crate::fault::UnitLoadFault;
use crate::line::put_fault;
use tilt_outside::{Failed, Sink};

impl UnitLoadFault<'_> {
    ghost use Rattle.std.specs.Prelude.{◌≡◌, ℕ};
    ghost use Rattle.tilt_outside.specs.Written.{Puts};
    ghost use Rattle.tilt_unit_load.specs.UnitReport.{line_of_units, status_of_units, unit_report};

    /// The status that the program exits with.
    pub fn status(&self) -> u8
        ensures { result ≡ status_of_units (unit_report self.now) }
    {
        match self {
            UnitLoadFault::Shared(fault) => fault.status(),
            UnitLoadFault::Own(_) => 1,
        }
    }

    /// Writes the line that reports it. It takes no memory.
    pub fn put<E: Sink>(&self, err: &mut E) -> Result<(), Failed>
        requires { (n : ℕ) → E.takes err.old n }
        ensures { Puts E.tells E.written E.faults E.takes err.old err.new (line_of_units (unit_report self.now)) result }
    {
        match self {
            UnitLoadFault::Shared(fault) => fault.put(err),
            UnitLoadFault::Own(fault) => put_fault(err, *fault),
        }
    }
}
