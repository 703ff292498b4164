// How a feed that was halted is reported.
ghost use Rattle.std.specs.Prelude.{◌≡◌, ℕ};
ghost use Rattle.tilt_live_app.specs.Done.{line_of_halt, status_of_halt};
ghost use Rattle.tilt_serving.specs.Reported.{Reported};

use crate::folder_end::report_fault;
use tilt_outside::Sink;
use tilt_report::Fault;
use tilt_serving::Halt;

// Reports what halted a feed, and returns the status. A bad line was reported when it came.
pub(crate) fn report_halt<E: Sink>(err: &mut E, halt: Halt) -> u8
    requires { (n : ℕ) → E.takes err.old n }
    ensures status { result ≡ status_of_halt halt }
    ensures line { Reported E.tells E.written E.faults err.old err.new (line_of_halt halt) }
{
    match halt {
        Halt::BadLine => 1,
        Halt::TooManyKeys => {
            // A fault of the sink changes nothing.
            let _ = err.put(b"tilt: 88 too many keys\n");
            1
        }
        Halt::ReadFault => report_fault(err, &Fault::ReadFault("-")),
        Halt::WriteFault => report_fault(err, &Fault::WriteFault),
        Halt::OutOfMemory => report_fault(err, &Fault::OutOfMemory),
    }
}
