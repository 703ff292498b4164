// Why arguments that are a command are rejected, and how it is reported.
ghost use Rattle.std.specs.Prelude.{◌≡◌, ◌++◌, ℕ, codes};
ghost use Rattle.std.specs.Fmt.{decimal, signed_decimal};
ghost use Rattle.tilt_outside.specs.Written.{Puts};
ghost use Rattle.tilt_report.specs.Report.{row_words, series_number, series_words, statement_front, statement_words};

use crate::line::{put_counted, put_named, put_signed, put_text};
use tilt_lexer::Name;
use tilt_outside::{Failed, Sink};
use tilt_series::{SeriesFault, row_text};
use tilt_stream::Row;

/// Why arguments that are a command are rejected.
#[derive(Drop)]
pub enum Refusal<'a> {
    /// The arguments bind this name, which isn't the name of an input, or which was bound before.
    UnexpectedName(&'a Name),
    /// The arguments bind no file to the input of this name.
    UnboundInput(Name),
    /// The file of this name has more bytes than a file may have.
    FileTooLong(&'a str),
    /// The series of an input is rejected.
    BadSeries {
        /// The name of the input.
        name: Name,
        /// Why.
        fault: SeriesFault,
    },
    /// The byte of the query or the pipeline at this place is no blank, and no token starts there.
    BadByte {
        /// The place, counted in bytes from 0.
        at: u64,
    },
    /// The digits of the query or the pipeline that start at this place spell a number above 9223372036854775807.
    BigNumber {
        /// The place, counted in bytes from 0.
        at: u64,
    },
    /// The query has more than 256 statements.
    TooManyStatements,
    /// A statement of the query is rejected.
    BadStatement {
        /// Why.
        fault: StatementFault,
        /// The number of the statement, counted from 1.
        statement: u32,
    },
    /// The query looks back or ahead farther than a query may.
    TooFar {
        /// The look-back, in ticks.
        back: i128,
        /// The look-ahead, in ticks.
        ahead: i128,
    },
    /// A line of the code can't be where it is, is spelled otherwise, or has a number out of its range.
    BadCode {
        /// The number of the line, counted from 1.
        line: u64,
    },
    /// A line of the code names a buffer, a register or a map that isn't defined before it.
    BadReference {
        /// The number of its loop, counted from 1.
        in_loop: u64,
        /// The number of the line, counted from 1.
        line: u64,
    },
    /// The checkpoint file isn't the text of a checkpoint.
    BadCheckpoint,
    /// The session would end before the cut of its checkpoint. The cuts are those of the first input whose cut falls, or the minimum cuts
    /// if there is no input.
    CutBack {
        /// The cut of the checkpoint, in ticks.
        old: i64,
        /// The cut of the session, in ticks.
        new: i64,
    },
    /// The arguments don't give cuts to exactly the names of the inputs, each once.
    CutNames {
        /// The first name that isn't an input's or was given before, or else the name of the first input without a cut.
        name: Name,
    },
    /// A cut between parts isn't inside the output domain.
    PartOutside {
        /// The cut, in ticks.
        at: i64,
    },
    /// An order of steps names a part that isn't there.
    NoSuchPart {
        /// The number of the part, counted from 0.
        part: u32,
    },
    /// A step of a pipeline breaks a rule of pipelines.
    BadStep {
        /// The number of the step, counted from 1.
        step: u32,
    },
    /// The expression of a step of a pipeline doesn't have the type that the step needs.
    StepType {
        /// The number of the step, counted from 1.
        step: u32,
    },
    /// The file isn't the text of the state of a live run.
    BadState,
    /// The file is the state of a run of another query.
    OtherQuery,
    /// The file is the state of a run with other options of its watermarks.
    OtherOptions,
    /// A correction names a row that isn't there.
    NoSuchRow,
    /// A correction adds a row that would overlap another.
    Overlaps {
        /// The first row that it would overlap.
        row: Row,
    },
    /// A line of a file of corrections is no correction.
    BadEdit {
        /// The number of the line, counted from 1.
        line: u64,
    },
}

/// Why a statement of a query is rejected.
#[derive(Clone, Copy)]
pub enum StatementFault {
    /// It has more than 256 tokens.
    TooLong,
    /// It isn't in the grammar.
    NoReading,
    /// It is an `emit` and not the last one, or the last one and no `emit`.
    EmitPlace,
    /// It declares a name that was declared before.
    NameTaken,
    /// A name in its expression isn't declared before it.
    UnknownName,
    /// Its expression has no fitting type.
    TypeMismatch,
    /// A window in its expression doesn't end after its start.
    BadWindow,
    /// Its span or its period isn't allowed there.
    BadDomain,
}

impl Refusal<'_> {
    ghost use Rattle.tilt_report.specs.Report.{reason_of, reason_words};

    /// Writes its number and its text. It takes no memory.
    pub fn put<E: Sink>(&self, err: &mut E) -> Result<(), Failed>
        requires { (n : ℕ) → E.takes err.old n }
        ensures { Puts E.tells E.written E.faults E.takes err.old err.new
            (reason_words (reason_of self.now)) result }
    {
        match self {
            Refusal::UnexpectedName(name) => put_named(err, b"2 input names: ", name.bytes()),
            Refusal::UnboundInput(name) => put_named(err, b"2 input names: ", name.bytes()),
            Refusal::FileTooLong(name) => put_named(err, b"3 file too long: ", name.as_bytes()),
            Refusal::BadSeries { name, fault } => put_series(err, name.bytes(), fault),
            Refusal::BadByte { at } => put_counted(err, b"20 bad byte at ", *at),
            Refusal::BigNumber { at } => put_counted(err, b"21 big number at ", *at),
            Refusal::TooManyStatements => put_text(err, b"22 too many statements"),
            Refusal::BadStatement { fault, statement } => put_statement(err, *fault, *statement),
            Refusal::TooFar { back, ahead } => put_reach(err, *back, *ahead),
            Refusal::BadCode { line } => put_counted(err, b"40 bad code in line ", *line),
            Refusal::BadReference { in_loop, line } => put_reference(err, *in_loop, *line),
            Refusal::BadCheckpoint => put_text(err, b"50 bad checkpoint"),
            Refusal::CutBack { old, new } => put_cut_back(err, *old, *new),
            Refusal::CutNames { name } => put_named(err, b"52 cut names: ", name.bytes()),
            Refusal::PartOutside { at } => put_outside(err, *at),
            Refusal::NoSuchPart { part } => put_no_part(err, *part),
            Refusal::BadStep { step } => put_counted(err, b"53 bad step ", u64::from(*step)),
            Refusal::StepType { step } => put_step_type(err, *step),
            Refusal::BadState => put_text(err, b"55 bad state"),
            Refusal::OtherQuery => put_text(err, b"58 state of another query"),
            Refusal::OtherOptions => put_text(err, b"59 state of other options"),
            Refusal::NoSuchRow => put_text(err, b"60 no such row"),
            Refusal::Overlaps { row } => put_overlaps(err, row),
            Refusal::BadEdit { line } => put_counted(err, b"62 bad edit in line ", *line),
        }
    }
}

// Writes why the series of an input of that name is rejected.
fn put_series<E: Sink>(err: &mut E, name: &[u8], fault: &SeriesFault) -> Result<(), Failed>
    requires { (n : ℕ) → E.takes err.old n }
    ensures { Puts E.tells E.written E.faults E.takes err.old err.new
        (series_number fault.now ++ codes " series " ++ name.now ++ series_words fault.now) result }
{
    put_named(err, number_of(fault).as_bytes(), b" series ")?;
    put_text(err, name)?;
    put_fault(err, fault)
}

// The number before the name.
fn number_of(fault: &SeriesFault) -> &'static str
    ensures { result.now ≡ series_number fault.now }
{
    match fault {
        SeriesFault::BadHeader => "10",
        SeriesFault::BadFields { .. } => "11",
        SeriesFault::BadField { .. } => "12",
        SeriesFault::TimeRange { .. } => "13",
        SeriesFault::EmptyInterval { .. } => "14",
        SeriesFault::OutOfOrder { .. } => "15",
        SeriesFault::RowBeforeCut { .. } => "16",
        SeriesFault::RowPastCut { .. } => "17",
    }
}

// Writes what follows the name.
fn put_fault<E: Sink>(err: &mut E, fault: &SeriesFault) -> Result<(), Failed>
    requires { (n : ℕ) → E.takes err.old n }
    ensures { Puts E.tells E.written E.faults E.takes err.old err.new
        (series_words fault.now) result }
{
    match fault {
        SeriesFault::BadHeader => put_text(err, b": bad header"),
        SeriesFault::BadFields { row } => put_counted(err, b": bad fields in row ", *row),
        SeriesFault::BadField { row, field } => put_field(err, *row, *field),
        SeriesFault::TimeRange { row } => put_counted(err, b": time out of range in row ", *row),
        SeriesFault::EmptyInterval { row } => put_counted(err, b": empty interval in row ", *row),
        SeriesFault::OutOfOrder { row } => put_counted(err, b": out of order in row ", *row),
        SeriesFault::RowBeforeCut { row } => put_counted(err, b": before the cut in row ", *row),
        SeriesFault::RowPastCut { row } => put_counted(err, b": past the cut in row ", *row),
    }
}

// Writes which field of which row is bad.
fn put_field<E: Sink>(err: &mut E, row: u64, field: u8) -> Result<(), Failed>
    requires { (n : ℕ) → E.takes err.old n }
    ensures { Puts E.tells E.written E.faults E.takes err.old err.new
        (codes ": bad field " ++ decimal field ++ codes " in row " ++ decimal row) result }
{
    put_counted(err, b": bad field ", u64::from(field))?;
    put_counted(err, b" in row ", row)
}

// Writes why a statement is rejected.
fn put_statement<E: Sink>(err: &mut E, fault: StatementFault, statement: u32) -> Result<(), Failed>
    requires { (n : ℕ) → E.takes err.old n }
    ensures { Puts E.tells E.written E.faults E.takes err.old err.new
        (statement_front fault ++ decimal statement ++ statement_words fault) result }
{
    put_counted(err, front_of(fault).as_bytes(), u64::from(statement))?;
    put_text(err, words_of(fault).as_bytes())
}

// Writes how far a query looks.
fn put_reach<E: Sink>(err: &mut E, back: i128, ahead: i128) -> Result<(), Failed>
    requires { (n : ℕ) → E.takes err.old n }
    ensures { Puts E.tells E.written E.faults E.takes err.old err.new
        (codes "31 too far: back " ++ signed_decimal back ++ codes " ahead " ++ signed_decimal ahead) result }
{
    put_signed(err, b"31 too far: back ", back)?;
    put_signed(err, b" ahead ", ahead)
}

// The text before the number of the statement.
fn front_of(fault: StatementFault) -> &'static str
    ensures { result.now ≡ statement_front fault }
{
    match fault {
        StatementFault::TooLong => "23 statement ",
        StatementFault::NoReading => "24 statement ",
        StatementFault::EmitPlace => "25 statement ",
        StatementFault::NameTaken => "26 statement ",
        StatementFault::UnknownName => "27 statement ",
        StatementFault::TypeMismatch => "28 statement ",
        StatementFault::BadWindow => "29 statement ",
        StatementFault::BadDomain => "30 statement ",
    }
}

// The text after the number of the statement.
fn words_of(fault: StatementFault) -> &'static str
    ensures { result.now ≡ statement_words fault }
{
    match fault {
        StatementFault::TooLong => ": too long",
        StatementFault::NoReading => ": syntax",
        StatementFault::EmitPlace => ": place of emit",
        StatementFault::NameTaken => ": name taken",
        StatementFault::UnknownName => ": unknown name",
        StatementFault::TypeMismatch => ": type mismatch",
        StatementFault::BadWindow => ": bad window",
        StatementFault::BadDomain => ": bad domain",
    }
}

// Writes which line of the code names what isn't defined before it.
fn put_reference<E: Sink>(err: &mut E, in_loop: u64, line: u64) -> Result<(), Failed>
    requires { (n : ℕ) → E.takes err.old n }
    ensures { Puts E.tells E.written E.faults E.takes err.old err.new
        (codes "41 bad reference in loop " ++ decimal in_loop ++ codes ", line " ++ decimal line) result }
{
    put_counted(err, b"41 bad reference in loop ", in_loop)?;
    put_counted(err, b", line ", line)
}

// Writes from which cut to which a session would go back.
fn put_cut_back<E: Sink>(err: &mut E, old: i64, new: i64) -> Result<(), Failed>
    requires { (n : ℕ) → E.takes err.old n }
    ensures { Puts E.tells E.written E.faults E.takes err.old err.new
        (codes "51 cut back from " ++ signed_decimal old ++ codes " to " ++ signed_decimal new) result }
{
    put_signed(err, b"51 cut back from ", i128::from(old))?;
    put_signed(err, b" to ", i128::from(new))
}

// Writes which cut isn't inside the output domain.
fn put_outside<E: Sink>(err: &mut E, at: i64) -> Result<(), Failed>
    requires { (n : ℕ) → E.takes err.old n }
    ensures { Puts E.tells E.written E.faults E.takes err.old err.new
        (codes "56 part outside: " ++ signed_decimal at) result }
{
    put_signed(err, b"56 part outside: ", i128::from(at))
}

// Writes which part isn't there.
fn put_no_part<E: Sink>(err: &mut E, part: u32) -> Result<(), Failed>
    requires { (n : ℕ) → E.takes err.old n }
    ensures { Puts E.tells E.written E.faults E.takes err.old err.new
        (codes "57 no such part: " ++ decimal part) result }
{
    put_counted(err, b"57 no such part: ", u64::from(part))
}

// Writes the expression of which step has another type.
fn put_step_type<E: Sink>(err: &mut E, step: u32) -> Result<(), Failed>
    requires { (n : ℕ) → E.takes err.old n }
    ensures { Puts E.tells E.written E.faults E.takes err.old err.new
        (codes "54 step " ++ decimal step ++ codes ": type") result }
{
    put_counted(err, b"54 step ", u64::from(step))?;
    put_text(err, b": type")
}

// Writes which row would be overlapped.
fn put_overlaps<E: Sink>(err: &mut E, row: &Row) -> Result<(), Failed>
    requires { (n : ℕ) → E.takes err.old n }
    ensures { Puts E.tells E.written E.faults E.takes err.old err.new
        (codes "61 overlaps " ++ row_words row.now) result }
{
    let mut room = [0; 64];
    let length = row_text(row, &mut room);
    // Without the LF at its end.
    put_named(err, b"61 overlaps ", &room[..length - 1])
}
