// A command that checks a query in units.
ghost use Rattle.std.specs.Prelude.{◌≡◌, Some, ℕ};
ghost use Rattle.tilt_input_scales.specs.Scales.{ScalesValue};
ghost use Rattle.tilt_live_app.specs.Change.{shelf_change};
ghost use Rattle.tilt_live_app.specs.Checking.{HasDoneCheck, HasPrintedCheck, unsafe_line};
ghost use Rattle.tilt_serving.specs.Reported.{Reported};
ghost use Rattle.tilt_outside.specs.Reads.{OnlyReads};

use crate::folder_end::report_fault;
use crate::in_folder::print;
use crate::named_line::put_line;
use crate::unbegun::{Unbegun, report_unbegun};
use std::alloc::Global;
use tilt_input_scales::Scales;
use tilt_outside::{Shelf, Sink};
use tilt_port::Port;
use tilt_report::Fault;
use tilt_unit_check::{Checked, check_in_units};
use tilt_unit_report::InputBound;

// Checks the query in units that the file of that name is, prints what is found, and returns the status.
pub(crate) fn check_query<S: Shelf, P: Port, E: Sink>(
    alloc: Global,
    name: &str,
    scales: &Scales,
    bounds: &[InputBound],
    shelf: &mut S,
    port: &mut P,
    err: &mut E,
) -> u8
    requires lent { S.lends name.now }
    requires lines { (n : ℕ) → E.takes err.old n }
    ensures is { HasDoneCheck P.tells (P.transcript port.old) (P.transcript port.new) E.tells E.written E.faults
        (shelf_change S.tells S.files S.read_faults S.save_faults shelf.old shelf.new) name.now scales.now bounds.now
        err.old err.new result }
    ensures rest { OnlyReads S.files S.read_faults S.save_faults S.takes shelf.old shelf.new }
{
    match check_in_units(alloc, shelf, name, scales, bounds) {
        Ok(found) => print_check(&found, port, err),
        Err(fault) => report_unbegun(err, &Unbegun::from(fault)),
    }
}

// Prints what was found, and returns the status.
fn print_check<P: Port, E: Sink>(found: &Checked, port: &mut P, err: &mut E) -> u8
    requires lines { (n : ℕ) → E.takes err.old n }
    ensures printed { HasPrintedCheck P.tells (P.transcript port.old) (P.transcript port.new) E.tells E.written E.faults found.now
        err.old err.new result }
{
    match print(port, &found.text) {
        Ok(()) => match &found.can_leave {
            None => 0,
            Some(definition) => report_unsafe(err, definition),
        },
        Err(_) => report_fault(err, &Fault::WriteFault),
    }
}

// Reports the definition that can leave 64 bits, and returns the status.
fn report_unsafe<E: Sink>(err: &mut E, definition: &[u8]) -> u8
    requires { (n : ℕ) → E.takes err.old n }
    ensures status { result ≡ 1 }
    ensures line { Reported E.tells E.written E.faults err.old err.new (unsafe_line definition.now) }
{
    // A fault of the sink changes nothing.
    let _ = put_line(err, b"tilt: 120 can leave 64 bits: ", definition);
    1
}
