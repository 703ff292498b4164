// Why a command isn't done, and how it is reported.
ghost use Rattle.std.specs.Prelude.{◌≡◌, ℕ};
ghost use Rattle.tilt_outside.specs.Written.{Puts};

use crate::line::{put_named, put_text};
use crate::refusal::{Refusal, StatementFault};
use std::alloc::AllocError;
use tilt_bounds::ReachFault;
use tilt_cli::WordsFault;
use tilt_code::CodeFault;
use tilt_edits::{EditFault, FixFault};
use tilt_lexer::LexFault;
use tilt_operators::FlowFault;
use tilt_outside::{Failed, Sink};
use tilt_syntax::{SyntaxFault, TextFault};
use tilt_types::CheckFault;

/// Why a command isn't done.
#[derive(Drop)]
pub enum Fault<'a> {
    /// The arguments are no command.
    Usage,
    /// The arguments are a command that is rejected.
    Refused(Refusal<'a>),
    /// A read of the file of this name failed.
    ReadFault(&'a str),
    /// A write or the flush of the output failed.
    WriteFault,
    /// The save of the file of this name failed.
    SaveFault(&'a str),
    /// There was no memory.
    OutOfMemory,
}

impl From<AllocError> for Fault<'_> {
    ghost use Rattle.std.specs.Prelude.{◌≡◌};
    ghost use Rattle.tilt_report.specs.declared.fault.Fault.TheVariants.{OutOfMemory};

    ghost from_gives = { λ _ fault. fault ≡ OutOfMemory };

    fn from(_: AllocError) -> Self {
        Fault::OutOfMemory
    }
}

impl From<WordsFault> for Fault<'_> {
    ghost use Rattle.std.specs.Prelude.{◌≡◌};
    ghost use Rattle.tilt_report.specs.Report.{report_of, report_of_words};

    ghost from_gives = { λ words fault. report_of fault ≡ report_of_words words };

    fn from(words: WordsFault) -> Self {
        match words {
            WordsFault::Usage => Fault::Usage,
            WordsFault::OutOfMemory => Fault::OutOfMemory,
        }
    }
}

impl From<LexFault> for Fault<'_> {
    ghost use Rattle.std.specs.Prelude.{◌≡◌};
    ghost use Rattle.tilt_report.specs.Report.{report_of, report_of_place};

    ghost from_gives = { λ place fault. report_of fault ≡ report_of_place place };

    fn from(place: LexFault) -> Self {
        match place {
            LexFault::BadByte { at } => Fault::Refused(Refusal::BadByte { at }),
            LexFault::BigNumber { at } => Fault::Refused(Refusal::BigNumber { at }),
            LexFault::OutOfMemory => Fault::OutOfMemory,
        }
    }
}

impl From<SyntaxFault> for Fault<'_> {
    ghost use Rattle.std.specs.Prelude.{◌≡◌};
    ghost use Rattle.tilt_report.specs.Report.{report_of, report_of_syntax};

    ghost from_gives = { λ syntax fault. report_of fault ≡ report_of_syntax syntax };

    fn from(syntax: SyntaxFault) -> Self {
        match syntax {
            SyntaxFault::TooManyStatements => Fault::Refused(Refusal::TooManyStatements),
            SyntaxFault::StatementTooLong { statement } => {
                bad_statement(StatementFault::TooLong, statement)
            }
            SyntaxFault::Syntax { statement } => bad_statement(
                StatementFault::NoReading,
                statement,
            ),
            SyntaxFault::EmitPlace { statement } => {
                bad_statement(StatementFault::EmitPlace, statement)
            }
            SyntaxFault::OutOfMemory => Fault::OutOfMemory,
        }
    }
}

impl From<TextFault> for Fault<'_> {
    ghost use Rattle.std.specs.Prelude.{◌≡◌};
    ghost use Rattle.tilt_report.specs.Report.{report_of, report_of_text};

    ghost from_gives = { λ text fault. report_of fault ≡ report_of_text text };

    fn from(text: TextFault) -> Self {
        match text {
            TextFault::Lexical(place) => Fault::from(place),
            TextFault::Refused(syntax) => Fault::from(syntax),
            TextFault::OutOfMemory => Fault::OutOfMemory,
        }
    }
}

impl From<CheckFault> for Fault<'_> {
    ghost use Rattle.std.specs.Prelude.{◌≡◌};
    ghost use Rattle.tilt_report.specs.Report.{report_of, report_of_check};

    ghost from_gives = { λ check fault. report_of fault ≡ report_of_check check };

    fn from(check: CheckFault) -> Self {
        match check {
            CheckFault::NameTaken { statement } => {
                bad_statement(StatementFault::NameTaken, statement)
            }
            CheckFault::UnknownName { statement } => {
                bad_statement(StatementFault::UnknownName, statement)
            }
            CheckFault::TypeMismatch { statement } => {
                bad_statement(StatementFault::TypeMismatch, statement)
            }
            CheckFault::BadWindow { statement } => {
                bad_statement(StatementFault::BadWindow, statement)
            }
            CheckFault::BadDomain { statement } => {
                bad_statement(StatementFault::BadDomain, statement)
            }
            CheckFault::OutOfMemory => Fault::OutOfMemory,
        }
    }
}

impl From<ReachFault> for Fault<'_> {
    ghost use Rattle.std.specs.Prelude.{◌≡◌};
    ghost use Rattle.tilt_report.specs.Report.{report_of, report_of_reach};

    ghost from_gives = { λ reach fault. report_of fault ≡ report_of_reach reach };

    fn from(reach: ReachFault) -> Self {
        match reach {
            ReachFault::TooFar { back, ahead } => Fault::Refused(Refusal::TooFar { back, ahead }),
            ReachFault::OutOfMemory => Fault::OutOfMemory,
        }
    }
}

impl From<FlowFault> for Fault<'_> {
    ghost use Rattle.std.specs.Prelude.{◌≡◌};
    ghost use Rattle.tilt_report.specs.Report.{report_of, report_of_flow};

    ghost from_gives = { λ flow fault. report_of fault ≡ report_of_flow flow };

    fn from(flow: FlowFault) -> Self {
        match flow {
            FlowFault::BadByte { at } => Fault::Refused(Refusal::BadByte { at }),
            FlowFault::BigNumber { at } => Fault::Refused(Refusal::BigNumber { at }),
            FlowFault::BadStep { step } => Fault::Refused(Refusal::BadStep { step }),
            FlowFault::StepType { step } => Fault::Refused(Refusal::StepType { step }),
            FlowFault::OutOfMemory => Fault::OutOfMemory,
        }
    }
}

impl From<CodeFault> for Fault<'_> {
    ghost use Rattle.std.specs.Prelude.{◌≡◌};
    ghost use Rattle.tilt_report.specs.Report.{report_of, report_of_code};

    ghost from_gives = { λ code fault. report_of fault ≡ report_of_code code };

    fn from(code: CodeFault) -> Self {
        match code {
            CodeFault::BadCode { line } => Fault::Refused(Refusal::BadCode { line }),
            CodeFault::BadReference { in_loop, line } => {
                Fault::Refused(Refusal::BadReference { in_loop, line })
            }
            CodeFault::OutOfMemory => Fault::OutOfMemory,
        }
    }
}

impl From<EditFault> for Fault<'_> {
    ghost use Rattle.std.specs.Prelude.{◌≡◌};
    ghost use Rattle.tilt_report.specs.Report.{report_of, report_of_edits};

    ghost from_gives = { λ edits fault. report_of fault ≡ report_of_edits edits };

    fn from(edits: EditFault) -> Self {
        match edits {
            EditFault::BadEdit { line } => Fault::Refused(Refusal::BadEdit { line }),
            EditFault::OutOfMemory => Fault::OutOfMemory,
        }
    }
}

impl From<FixFault> for Fault<'_> {
    ghost use Rattle.std.specs.Prelude.{◌≡◌};
    ghost use Rattle.tilt_report.specs.Report.{report_of, report_of_fix};

    ghost from_gives = { λ fix fault. report_of fault ≡ report_of_fix fix };

    fn from(fix: FixFault) -> Self {
        match fix {
            FixFault::NoSuchRow => Fault::Refused(Refusal::NoSuchRow),
            FixFault::Overlaps { row } => Fault::Refused(Refusal::Overlaps { row }),
            FixFault::OutOfMemory => Fault::OutOfMemory,
        }
    }
}

// The refusal of a statement.
fn bad_statement<'a>(fault: StatementFault, statement: u32) -> Fault<'a>
    ensures { result ≡ Fault.Refused (Refusal.BadStatement fault statement) }
{
    Fault::Refused(Refusal::BadStatement { fault, statement })
}

impl Fault<'_> {
    ghost use Rattle.tilt_report.specs.Report.{report_of, status_of, words_of, line_of};

    /// The status that the program exits with.
    pub fn status(&self) -> u8
        ensures { result ≡ status_of (report_of self.now) }
    {
        match self {
            Fault::Refused(_) => 1,
            Fault::Usage => 2,
            Fault::ReadFault(_) => 3,
            Fault::WriteFault => 4,
            Fault::SaveFault(_) => 6,
            Fault::OutOfMemory => 5,
        }
    }

    /// Writes the line that reports it. It takes no memory.
    pub fn put<E: Sink>(&self, err: &mut E) -> Result<(), Failed>
        requires { (n : ℕ) → E.takes err.old n }
        ensures { Puts E.tells E.written E.faults E.takes err.old err.new
            (line_of (report_of self.now)) result }
    {
        put_text(err, b"tilt: ")?;
        self.put_words(err)?;
        put_text(err, b"\n")
    }

    // Writes the number and the text.
    fn put_words<E: Sink>(&self, err: &mut E) -> Result<(), Failed>
        requires { (n : ℕ) → E.takes err.old n }
        ensures { Puts E.tells E.written E.faults E.takes err.old err.new
            (words_of (report_of self.now)) result }
    {
        match self {
            Fault::Usage => put_text(err, b"1 usage"),
            Fault::Refused(refusal) => refusal.put(err),
            Fault::ReadFault(name) => put_named(err, b"4 read fault: ", name.as_bytes()),
            Fault::WriteFault => put_text(err, b"5 write fault"),
            Fault::SaveFault(name) => put_named(err, b"6 save fault: ", name.as_bytes()),
            Fault::OutOfMemory => put_text(err, b"7 out of memory"),
        }
    }
}
