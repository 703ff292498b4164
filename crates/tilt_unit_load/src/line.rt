// The line that reports a fault of the units. None takes memory.
ghost use Rattle.std.specs.Prelude.{◌≡◌, ◌++◌, ℕ};
ghost use Rattle.std.specs.Fmt.{decimal};
ghost use Rattle.tilt_outside.specs.Written.{Puts};
ghost use Rattle.tilt_unit_load.specs.UnitReport.{back_of, front_of, number_in, statement_back, statement_front};

use crate::fault::{UnitFileFault, UnitStatementFault};
use itoa::Buffer;
use tilt_outside::{Failed, Sink};

// Writes the line of a fault: what comes before its number, the number, and the rest.
pub(crate) fn put_fault<E: Sink>(err: &mut E, fault: UnitFileFault) -> Result<(), Failed>
    requires { (n : ℕ) → E.takes err.old n }
    ensures { Puts E.tells E.written E.faults E.takes err.old err.new
        (front_of fault ++ (decimal (number_in fault) ++ back_of fault)) result }
{
    put(err, front_of(fault))?;
    put_from_number(err, fault)
}

// Writes the number of a fault, and the rest of its line.
fn put_from_number<E: Sink>(err: &mut E, fault: UnitFileFault) -> Result<(), Failed>
    requires { (n : ℕ) → E.takes err.old n }
    ensures { Puts E.tells E.written E.faults E.takes err.old err.new (decimal (number_in fault) ++ back_of fault) result }
{
    put_number(err, number_in(fault))?;
    put(err, back_of(fault))
}

// Writes a number.
fn put_number<E: Sink>(err: &mut E, number: u64) -> Result<(), Failed>
    requires { (n : ℕ) → E.takes err.old n }
    ensures { Puts E.tells E.written E.faults E.takes err.old err.new (decimal number) result }
{
    let mut buffer = Buffer::new();
    put(err, buffer.format(number).as_bytes())
}

// Writes a text.
fn put<E: Sink>(err: &mut E, text: &[u8]) -> Result<(), Failed>
    requires { (n : ℕ) → E.takes err.old n }
    ensures { Puts E.tells E.written E.faults E.takes err.old err.new text.now result }
{
    err.put(text)
}

// What comes before the number of a fault.
fn front_of(fault: UnitFileFault) -> &'static [u8]
    ensures { result.now ≡ front_of fault }
{
    match fault {
        UnitFileFault::BadPoint { .. } => b"tilt: 110 bad point at ",
        UnitFileFault::ManyDecimals { .. } => b"tilt: 111 too many decimals at ",
        UnitFileFault::TicksWithPoint { .. } => b"tilt: 112 ticks with a point at ",
        UnitFileFault::BadStatement { fault, .. } => statement_front(fault),
        UnitFileFault::OutputScale { .. } => b"tilt: 119 output scale ",
    }
}

// The place, the statement or the scale that a fault is about.
fn number_in(fault: UnitFileFault) -> u64
    ensures { result ≡ number_in fault }
{
    match fault {
        UnitFileFault::BadPoint { at } => at,
        UnitFileFault::ManyDecimals { at } => at,
        UnitFileFault::TicksWithPoint { at } => at,
        UnitFileFault::BadStatement { statement, .. } => u64::from(statement),
        UnitFileFault::OutputScale { scale } => scale,
    }
}

// What comes after the number.
fn back_of(fault: UnitFileFault) -> &'static [u8]
    ensures { result.now ≡ back_of fault }
{
    match fault {
        UnitFileFault::BadStatement { fault, .. } => statement_back(fault),
        _ => b"\n",
    }
}

// What comes before the number of a statement.
fn statement_front(fault: UnitStatementFault) -> &'static [u8]
    ensures { result.now ≡ statement_front fault }
{
    match fault {
        UnitStatementFault::ScalesDiffer => b"tilt: 113 statement ",
        UnitStatementFault::LiteralNotWhole => b"tilt: 114 statement ",
        UnitStatementFault::LiteralTooLarge => b"tilt: 115 statement ",
        UnitStatementFault::ScaleTooLarge => b"tilt: 116 statement ",
        UnitStatementFault::TooLarge => b"tilt: 117 statement ",
        UnitStatementFault::TooLong => b"tilt: 118 statement ",
    }
}

// What comes after the number of a statement.
fn statement_back(fault: UnitStatementFault) -> &'static [u8]
    ensures { result.now ≡ statement_back fault }
{
    match fault {
        UnitStatementFault::ScalesDiffer => b": scales differ\n",
        UnitStatementFault::LiteralNotWhole => b": literal not whole\n",
        UnitStatementFault::LiteralTooLarge => b": literal too large\n",
        UnitStatementFault::ScaleTooLarge => b": scale too large\n",
        UnitStatementFault::TooLarge => b": too large over whole numbers\n",
        UnitStatementFault::TooLong => b": too long over whole numbers\n",
    }
}
