// The statement that a definition is.
ghost use Rattle.std.specs.Prelude.{◌≡◌, ◌≤◌, length, map};
ghost use Rattle.tilt_syntax.specs.Tree.{statement_tree};
ghost use Rattle.tilt_unit_text.specs.Units.{definition_with, of_scale, statement_of};

use crate::fault::UnitFault;
use tilt_syntax::Statement;
use tilt_units::ScaleFault;

// The fault of a translation, as a fault of a text in units.
pub(crate) fn of_scale(statements: &[Statement], fault: ScaleFault) -> UnitFault
    requires { length statements.now ≤ 256 }
    ensures { result ≡ of_scale (map statement_tree statements.now) fault }
{
    if fault == ScaleFault::OutOfMemory {
        return UnitFault::OutOfMemory;
    }
    UnitFault::Scale {
        statement: statement_of(statements, definition_with(&fault)),
        fault,
    }
}

// The number of the definition that a fault is in, or 0 if it is in none.
fn definition_with(fault: &ScaleFault) -> u32
    ensures { result ≡ definition_with fault.now }
{
    match fault {
        ScaleFault::UnknownSource(place)
        | ScaleFault::TypeMismatch(place)
        | ScaleFault::ScalesDiffer(place)
        | ScaleFault::LiteralNotWhole(place)
        | ScaleFault::LiteralTooLarge(place)
        | ScaleFault::ScaleTooLarge(place)
        | ScaleFault::BodyTooLarge(place) => place.definition,
        ScaleFault::TooManySources | ScaleFault::OutOfMemory => 0,
    }
}

// The number of the statement, counted from 1, that is the definition with this number, counted from 0.
pub(crate) fn statement_of(statements: &[Statement], definition: u32) -> u32
    requires { length statements.now ≤ 256 }
    ensures { result ≡ statement_of 1 (map statement_tree statements.now) definition }
{
    let mut number = 1;
    let mut before = definition;
    for statement in statements {
        match statement {
            Statement::Input { .. } => {}
            Statement::Let { .. } | Statement::Emit { .. } if before == 0 => return number,
            Statement::Let { .. } | Statement::Emit { .. } => before -= 1,
        }
        number += 1;
    }
    number
}
