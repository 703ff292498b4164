// The lines that report bad lines. None takes memory.
ghost use Rattle.std.specs.Prelude.{◌≡◌, ◌+◌, ◌++◌, ◌<◌, ◌^◌, ℕ, codes};
ghost use Rattle.std.specs.Fmt.{decimal};
ghost use Rattle.tilt_outside.specs.Written.{Puts};
ghost use Rattle.tilt_reading_text.specs.Report.{bad_front, bad_reason, column_text, date_reason, feed_front, feed_reason, header_front};
ghost use Rattle.tilt_reading_text.specs.Report.{header_reason, local_reason, number_reason, report, turn_front, turn_reason, unread_front};
ghost use Rattle.tilt_reading_text.specs.Report.{unread_reason, value_reason};

use crate::bad_reading_line::BadReadingLine;
use itoa::Buffer;
use tilt_conventions::TurnFault;
use tilt_outside::{Failed, Sink};
use tilt_reading_feed::FeedFault;
use tilt_reading_lines::{Column, HeaderFault, LineFault};
use tilt_readings::{DateFault, DecimalFault};
use tilt_zones::LocalFault;

/// Writes the line that reports a bad line, by its number from 1. Inputs are counted from 1 there too. It takes no memory.
pub fn put_report<E: Sink>(err: &mut E, number: u64, why: BadReadingLine) -> Result<(), Failed>
    requires { (n : ℕ) → E.takes err.old n }
    ensures { Puts E.tells E.written E.faults E.takes err.old err.new (report number why) result }
{
    put(err, b"tilt: ")?;
    put_from_code(err, number, why)
}

// Writes the number of the reason, and what comes after it.
fn put_from_code<E: Sink>(err: &mut E, number: u64, why: BadReadingLine) -> Result<(), Failed>
    requires { (n : ℕ) → E.takes err.old n }
    ensures { Puts E.tells E.written E.faults E.takes err.old err.new
        (bad_front why ++ (codes " line " ++ (decimal number ++ bad_reason why))) result }
{
    put(err, bad_front(why))?;
    put_from_line(err, number, why)
}

// Writes the number of the line, and what comes after it.
fn put_from_line<E: Sink>(err: &mut E, number: u64, why: BadReadingLine) -> Result<(), Failed>
    requires { (n : ℕ) → E.takes err.old n }
    ensures { Puts E.tells E.written E.faults E.takes err.old err.new (codes " line " ++ (decimal number ++ bad_reason why)) result }
{
    put(err, b" line ")?;
    put_from_number(err, number, why)
}

fn put_from_number<E: Sink>(err: &mut E, number: u64, why: BadReadingLine) -> Result<(), Failed>
    requires { (n : ℕ) → E.takes err.old n }
    ensures { Puts E.tells E.written E.faults E.takes err.old err.new (decimal number ++ bad_reason why) result }
{
    put_number(err, number)?;
    put_reason(err, why)
}

// Writes what is said after the number of the line.
fn put_reason<E: Sink>(err: &mut E, why: BadReadingLine) -> Result<(), Failed>
    requires { (n : ℕ) → E.takes err.old n }
    ensures { Puts E.tells E.written E.faults E.takes err.old err.new (bad_reason why) result }
{
    match why {
        BadReadingLine::TooLong => put(err, b": too long\n"),
        BadReadingLine::BadHeader(fault) => put_header_reason(err, fault),
        BadReadingLine::Unreadable(fault) => put_unread_reason(err, fault),
        BadReadingLine::NotTaken(fault) => put_feed_reason(err, fault),
        BadReadingLine::NoEnd => put(err, b": no end of line\n"),
    }
}

// Writes why a header is bad.
fn put_header_reason<E: Sink>(err: &mut E, fault: HeaderFault) -> Result<(), Failed>
    requires { (n : ℕ) → E.takes err.old n }
    ensures { Puts E.tells E.written E.faults E.takes err.old err.new (header_reason fault) result }
{
    match fault {
        HeaderFault::NotOneRecord => put(err, b": the header isn't one record\n"),
        HeaderFault::Missing { column } => put_column(err, b": no column of ", column),
        HeaderFault::Doubled { column } => put_column(err, b": two columns of ", column),
    }
}

// Writes a text, and what a column is for.
fn put_column<E: Sink>(err: &mut E, text: &[u8], column: Column) -> Result<(), Failed>
    requires { (n : ℕ) → E.takes err.old n }
    ensures { Puts E.tells E.written E.faults E.takes err.old err.new (text.now ++ column_text column) result }
{
    put(err, text)?;
    put_column_text(err, column)
}

fn put_column_text<E: Sink>(err: &mut E, column: Column) -> Result<(), Failed>
    requires { (n : ℕ) → E.takes err.old n }
    ensures { Puts E.tells E.written E.faults E.takes err.old err.new (column_text column) result }
{
    match column {
        Column::Time => put(err, b"times\n"),
        Column::Name => put(err, b"names\n"),
        Column::Value => put(err, b"values\n"),
        Column::OfInput { input } => put_with_input(err, b"input ", input, b"\n"),
    }
}

// Writes why a line says nothing.
fn put_unread_reason<E: Sink>(err: &mut E, fault: LineFault) -> Result<(), Failed>
    requires { (n : ℕ) → E.takes err.old n }
    ensures { Puts E.tells E.written E.faults E.takes err.old err.new (unread_reason fault) result }
{
    match fault {
        LineFault::NotOneRecord => put(err, b": not one record\n"),
        LineFault::FieldCount { expected } => {
            put_with_number(err, b": not ", expected as u64, b" fields\n")
        }
        LineFault::BadDate(fault) => put(err, date_reason(fault)),
        LineFault::BadLocal(fault) => put(err, local_reason(fault)),
        LineFault::BadNumber(fault) => put(err, number_reason(fault)),
        LineFault::TimeOutOfRange => put(err, b": time out of range\n"),
        LineFault::NoName => put(err, b": no name\n"),
        LineFault::BadValue { input, fault } => {
            put_with_input(err, b": bad value of input ", input, value_reason(fault))
        }
    }
}

// Writes why a feed doesn't take what a line says.
fn put_feed_reason<E: Sink>(err: &mut E, fault: FeedFault) -> Result<(), Failed>
    requires { (n : ℕ) → E.takes err.old n }
    ensures { Puts E.tells E.written E.faults E.takes err.old err.new (feed_reason fault) result }
{
    match fault {
        FeedFault::Finished => put(err, b": after the end\n"),
        FeedFault::NoInput { input } => put_with_input(err, b": no input ", input, b"\n"),
        FeedFault::Repeated { .. } => put(err, b": readings not in the order of inputs\n"),
        FeedFault::NotTaken { input, fault } => put_turn_reason(err, input, fault),
        FeedFault::OutOfRange => put(err, b": time out of range\n"),
    }
}

// Writes why an input doesn't take a reading.
fn put_turn_reason<E: Sink>(err: &mut E, input: u32, fault: TurnFault) -> Result<(), Failed>
    requires { (n : ℕ) → E.takes err.old n }
    ensures { Puts E.tells E.written E.faults E.takes err.old err.new (turn_reason input fault) result }
{
    match fault {
        TurnFault::OutOfRange => put(err, b": time out of range\n"),
        TurnFault::Late => put_with_input(err, b": late reading of input ", input, b"\n"),
        TurnFault::Tie => {
            put_with_input(err, b": second reading in one tick of input ", input, b"\n")
        }
    }
}

// Writes the number of an input from 1, between two texts.
fn put_with_input<E: Sink>(
    err: &mut E,
    before: &[u8],
    input: u32,
    after: &[u8],
) -> Result<(), Failed>
    requires { (n : ℕ) → E.takes err.old n }
    ensures { Puts E.tells E.written E.faults E.takes err.old err.new (before.now ++ (decimal (input + 1) ++ after.now)) result }
{
    put_with_number(err, before, u64::from(input) + 1, after)
}

// Writes a number between two texts.
fn put_with_number<E: Sink>(
    err: &mut E,
    before: &[u8],
    number: u64,
    after: &[u8],
) -> Result<(), Failed>
    requires { (n : ℕ) → E.takes err.old n }
    ensures { Puts E.tells E.written E.faults E.takes err.old err.new (before.now ++ (decimal number ++ after.now)) result }
{
    put(err, before)?;
    put_number_and(err, number, after)
}

fn put_number_and<E: Sink>(err: &mut E, number: u64, after: &[u8]) -> Result<(), Failed>
    requires { (n : ℕ) → E.takes err.old n }
    ensures { Puts E.tells E.written E.faults E.takes err.old err.new (decimal number ++ after.now) result }
{
    put_number(err, number)?;
    put(err, after)
}

// Writes a number.
fn put_number<E: Sink>(err: &mut E, number: u64) -> Result<(), Failed>
    requires { (n : ℕ) → E.takes err.old n }
    ensures { Puts E.tells E.written E.faults E.takes err.old err.new (decimal number) result }
{
    let mut buffer = Buffer::new();
    put(err, buffer.format(number).as_bytes())
}

// Writes a text.
fn put<E: Sink>(err: &mut E, text: &[u8]) -> Result<(), Failed>
    requires { (n : ℕ) → E.takes err.old n }
    ensures { Puts E.tells E.written E.faults E.takes err.old err.new text.now result }
{
    err.put(text)
}

// The number of a reason.
fn bad_front(why: BadReadingLine) -> &'static [u8]
    ensures { result.now ≡ bad_front why }
{
    match why {
        BadReadingLine::TooLong => b"99",
        BadReadingLine::BadHeader(fault) => header_front(fault),
        BadReadingLine::Unreadable(fault) => unread_front(fault),
        BadReadingLine::NotTaken(fault) => feed_front(fault),
        BadReadingLine::NoEnd => b"100",
    }
}

// The number of the reason why a header is bad.
fn header_front(fault: HeaderFault) -> &'static [u8]
    ensures { result.now ≡ header_front fault }
{
    match fault {
        HeaderFault::NotOneRecord => b"90",
        HeaderFault::Missing { .. } => b"91",
        HeaderFault::Doubled { .. } => b"92",
    }
}

// The number of the reason why a line says nothing.
fn unread_front(fault: LineFault) -> &'static [u8]
    ensures { result.now ≡ unread_front fault }
{
    match fault {
        LineFault::NotOneRecord => b"93",
        LineFault::FieldCount { .. } => b"94",
        LineFault::BadDate(_) => b"95",
        LineFault::BadLocal(_) => b"95",
        LineFault::BadNumber(_) => b"95",
        LineFault::TimeOutOfRange => b"96",
        LineFault::NoName => b"97",
        LineFault::BadValue { .. } => b"98",
    }
}

// The number of the reason why a feed doesn't take what a line says.
fn feed_front(fault: FeedFault) -> &'static [u8]
    ensures { result.now ≡ feed_front fault }
{
    match fault {
        FeedFault::Finished => b"101",
        FeedFault::NoInput { .. } => b"104",
        FeedFault::Repeated { .. } => b"105",
        FeedFault::NotTaken { fault, .. } => turn_front(fault),
        FeedFault::OutOfRange => b"96",
    }
}

// The number of the reason why an input doesn't take a reading.
fn turn_front(fault: TurnFault) -> &'static [u8]
    ensures { result.now ≡ turn_front fault }
{
    match fault {
        TurnFault::OutOfRange => b"96",
        TurnFault::Late => b"102",
        TurnFault::Tie => b"103",
    }
}

// Why a text is no date, in words.
fn date_reason(fault: DateFault) -> &'static [u8]
    ensures { result.now ≡ date_reason fault }
{
    match fault {
        DateFault::NotDate => b": bad time: no date with an offset\n",
        DateFault::NoSuchTime => b": bad time: no such day or time\n",
        DateFault::TooFine => b": bad time: finer than a nanosecond\n",
        DateFault::OutOfYears => b": bad time: not in the years 1 to 9999\n",
    }
}

// Why a local time has no moment, in words.
fn local_reason(fault: LocalFault) -> &'static [u8]
    ensures { result.now ≡ local_reason fault }
{
    match fault {
        LocalFault::Skipped => b": bad time: the clocks of the zone skip this local time\n",
        LocalFault::Doubled => b": bad time: the clocks of the zone show this local time twice\n",
        LocalFault::Beyond => b": bad time: the table of the zone ends before this local time\n",
    }
}

// Why a text is no time in a unit, in words.
fn number_reason(fault: DecimalFault) -> &'static [u8]
    ensures { result.now ≡ number_reason fault }
{
    match fault {
        DecimalFault::NotDecimal => b": bad time: not a number\n",
        DecimalFault::NotWhole => b": bad time: finer than a nanosecond\n",
        DecimalFault::OutOfRange => b": bad time: out of range\n",
    }
}

// Why a text is no value, in words.
fn value_reason(fault: DecimalFault) -> &'static [u8]
    ensures { result.now ≡ value_reason fault }
{
    match fault {
        DecimalFault::NotDecimal => b": not a number\n",
        DecimalFault::NotWhole => b": digits would be lost\n",
        DecimalFault::OutOfRange => b": out of range\n",
    }
}
