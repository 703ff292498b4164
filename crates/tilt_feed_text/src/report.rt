// The lines that report bad lines. None takes memory.
ghost use Rattle.std.specs.Prelude.{◌≡◌, ◌++◌, ℕ, codes};
ghost use Rattle.std.specs.Fmt.{decimal};
ghost use Rattle.tilt_feed_text.specs.Report.{bad_front, bad_reason, report, rule_front, rule_reason};
ghost use Rattle.tilt_feed_text.specs.Report.{take_front, take_reason, unread_front, unread_reason};
ghost use Rattle.tilt_outside.specs.Written.{Puts};

use crate::bad_line::BadLine;
use itoa::Buffer;
use tilt_feed::EventFault;
use tilt_feed_line::LineFault;
use tilt_outside::{Failed, Sink};
use tilt_watermarks::TakeFault;

/// Writes the line that reports a bad line, by its number from 1. It takes no memory.
pub fn put_report<E: Sink>(err: &mut E, number: u64, why: BadLine) -> Result<(), Failed>
    requires { (n : ℕ) → E.takes err.old n }
    ensures { Puts E.tells E.written E.faults E.takes err.old err.new (report number why) result }
{
    put(err, b"tilt: ")?;
    put_from_code(err, number, why)
}

// Writes the number of the reason, and what comes after it.
fn put_from_code<E: Sink>(err: &mut E, number: u64, why: BadLine) -> Result<(), Failed>
    requires { (n : ℕ) → E.takes err.old n }
    ensures { Puts E.tells E.written E.faults E.takes err.old err.new
        (bad_front why ++ (codes " line " ++ (decimal number ++ bad_reason why))) result }
{
    put(err, bad_front(why))?;
    put_from_line(err, number, why)
}

// Writes the number of the line, and what comes after it.
fn put_from_line<E: Sink>(err: &mut E, number: u64, why: BadLine) -> Result<(), Failed>
    requires { (n : ℕ) → E.takes err.old n }
    ensures { Puts E.tells E.written E.faults E.takes err.old err.new (codes " line " ++ (decimal number ++ bad_reason why)) result }
{
    put(err, b" line ")?;
    put_from_number(err, number, why)
}

fn put_from_number<E: Sink>(err: &mut E, number: u64, why: BadLine) -> Result<(), Failed>
    requires { (n : ℕ) → E.takes err.old n }
    ensures { Puts E.tells E.written E.faults E.takes err.old err.new (decimal number ++ bad_reason why) result }
{
    put_number(err, number)?;
    put_reason(err, why)
}

// Writes what is said after the number of the line.
fn put_reason<E: Sink>(err: &mut E, why: BadLine) -> Result<(), Failed>
    requires { (n : ℕ) → E.takes err.old n }
    ensures { Puts E.tells E.written E.faults E.takes err.old err.new (bad_reason why) result }
{
    match why {
        BadLine::TooLong => put(err, b": too long\n"),
        BadLine::Unreadable(LineFault::FieldCount { expected }) => put_field_count(err, expected),
        BadLine::Unreadable(fault) => put(err, unread_reason(fault)),
        BadLine::NotTaken(fault) => put(err, take_reason(fault)),
        BadLine::NoEnd => put(err, b": no end of line\n"),
    }
}

// Writes how many fields a line should have.
fn put_field_count<E: Sink>(err: &mut E, expected: u8) -> Result<(), Failed>
    requires { (n : ℕ) → E.takes err.old n }
    ensures { Puts E.tells E.written E.faults E.takes err.old err.new (unread_reason (LineFault.FieldCount expected)) result }
{
    put(err, b": not ")?;
    put_fields(err, expected)
}

fn put_fields<E: Sink>(err: &mut E, expected: u8) -> Result<(), Failed>
    requires { (n : ℕ) → E.takes err.old n }
    ensures { Puts E.tells E.written E.faults E.takes err.old err.new (decimal expected ++ codes " fields\n") result }
{
    put_number(err, u64::from(expected))?;
    put(err, b" fields\n")
}

// Writes a number.
fn put_number<E: Sink>(err: &mut E, number: u64) -> Result<(), Failed>
    requires { (n : ℕ) → E.takes err.old n }
    ensures { Puts E.tells E.written E.faults E.takes err.old err.new (decimal number) result }
{
    let mut buffer = Buffer::new();
    put(err, buffer.format(number).as_bytes())
}

// Writes a text.
fn put<E: Sink>(err: &mut E, text: &[u8]) -> Result<(), Failed>
    requires { (n : ℕ) → E.takes err.old n }
    ensures { Puts E.tells E.written E.faults E.takes err.old err.new text.now result }
{
    err.put(text)
}

// The number of a reason.
fn bad_front(why: BadLine) -> &'static [u8]
    ensures { result.now ≡ bad_front why }
{
    match why {
        BadLine::TooLong => b"77",
        BadLine::Unreadable(fault) => unread_front(fault),
        BadLine::NotTaken(fault) => take_front(fault),
        BadLine::NoEnd => b"78",
    }
}

// The number of the reason why a line says nothing.
fn unread_front(fault: LineFault) -> &'static [u8]
    ensures { result.now ≡ unread_front fault }
{
    match fault {
        LineFault::NotOneRecord => b"70",
        LineFault::FieldCount { .. } => b"71",
        LineFault::NoForm => b"72",
        LineFault::UnknownInput => b"73",
        LineFault::BadStart => b"74",
        LineFault::BadEnd => b"75",
        LineFault::BadValue => b"76",
    }
}

// The same in words. The number of fields is written apart.
fn unread_reason(fault: LineFault) -> &'static [u8]
    requires { (expected : ℕ) → fault ≡ LineFault.FieldCount expected → ⊥ }
    ensures { result.now ≡ unread_reason fault }
{
    match fault {
        LineFault::NotOneRecord => b": not one record\n",
        LineFault::FieldCount { .. } => b"",
        LineFault::NoForm => b": no such form\n",
        LineFault::UnknownInput => b": unknown input\n",
        LineFault::BadStart => b": bad start\n",
        LineFault::BadEnd => b": bad end\n",
        LineFault::BadValue => b": bad value\n",
    }
}

// The number of the reason why watermarks don't take it.
fn take_front(fault: TakeFault) -> &'static [u8]
    ensures { result.now ≡ take_front fault }
{
    match fault {
        TakeFault::NotAllowed(rule) => rule_front(rule),
        TakeFault::Overlap => b"84",
        TakeFault::Ahead => b"85",
    }
}

// The same in words.
fn take_reason(fault: TakeFault) -> &'static [u8]
    ensures { result.now ≡ take_reason fault }
{
    match fault {
        TakeFault::NotAllowed(rule) => rule_reason(rule),
        TakeFault::Overlap => b": overlaps one that is held\n",
        TakeFault::Ahead => b": too far ahead\n",
    }
}

// The number of the rule that is broken.
fn rule_front(rule: EventFault) -> &'static [u8]
    ensures { result.now ≡ rule_front rule }
{
    match rule {
        EventFault::Finished => b"80",
        EventFault::OutOfRange => b"81",
        EventFault::Late => b"82",
        EventFault::NoTick => b"83",
    }
}

// The same in words.
fn rule_reason(rule: EventFault) -> &'static [u8]
    ensures { result.now ≡ rule_reason rule }
{
    match rule {
        EventFault::Finished => b": after the end\n",
        EventFault::OutOfRange => b": time out of range\n",
        EventFault::Late => b": late\n",
        EventFault::NoTick => b": empty interval\n",
    }
}
