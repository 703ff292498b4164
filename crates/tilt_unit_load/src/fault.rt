// Why a query file in units gives no query.
ghost use Rattle.std.specs.Prelude.{◌≡◌};
ghost use Rattle.tilt_unit_load.specs.UnitReport.{report_of_scale, unit_report};

use tilt_bounds::ReachFault;
use tilt_report::{Fault, Refusal, StatementFault};
use tilt_unit_text::UnitFault;
use tilt_units::ScaleFault;

/// Why a query file in units gives no query.
#[derive(Drop)]
pub enum UnitLoadFault<'a> {
    /// By a fault that every command can have of a query file.
    Shared(Fault<'a>),
    /// By a fault of the units.
    Own(UnitFileFault),
}

/// A fault of the units of a query file. Each place `at` is counted in bytes from 0.
#[derive(Clone, Copy, Debug, PartialEq, Eq)]
pub enum UnitFileFault {
    /// The point at this place isn't between two digits of a number, or it is the second one in a number.
    BadPoint {
        at: u64,
    },
    /// The number at this place has more than 18 digits after its point.
    ManyDecimals {
        at: u64,
    },
    /// The number of ticks at this place has a point.
    TicksWithPoint {
        at: u64,
    },
    /// A statement is rejected.
    BadStatement {
        /// Why.
        fault: UnitStatementFault,
        /// The number of the statement, counted from 1.
        statement: u32,
    },
    /// The scale of what the query emits is no power of ten.
    OutputScale {
        scale: u64,
    },
}

/// Why a statement of a query in units is rejected.
#[derive(Clone, Copy, Debug, PartialEq, Eq)]
pub enum UnitStatementFault {
    /// Two operands need one scale, and neither of their scales is a multiple of the other.
    ScalesDiffer,
    /// A literal isn't whole at the scale of what it is added to or compared with.
    LiteralNotWhole,
    /// A literal leaves 64 bits at the scale of what it is added to or compared with.
    LiteralTooLarge,
    /// The scale of a product leaves 64 bits.
    ScaleTooLarge,
    /// Its expression has more than 256 nodes over whole numbers.
    TooLarge,
    /// It takes more than 256 tokens over whole numbers.
    TooLong,
}

impl<'a> From<Fault<'a>> for UnitLoadFault<'a> {
    ghost use Rattle.std.specs.Prelude.{◌≡◌};
    ghost use Rattle.tilt_unit_load.specs.declared.fault.UnitLoadFault.TheVariants.{Shared};

    ghost from_gives = { λ fault why. why ≡ Shared fault };

    fn from(fault: Fault<'a>) -> Self {
        UnitLoadFault::Shared(fault)
    }
}

impl From<UnitFileFault> for UnitLoadFault<'_> {
    ghost use Rattle.std.specs.Prelude.{◌≡◌};
    ghost use Rattle.tilt_unit_load.specs.declared.fault.UnitLoadFault.TheVariants.{Own};

    ghost from_gives = { λ fault why. why ≡ Own fault };

    fn from(fault: UnitFileFault) -> Self {
        UnitLoadFault::Own(fault)
    }
}

impl From<ReachFault> for UnitLoadFault<'_> {
    ghost use Rattle.std.specs.Prelude.{◌≡◌};
    ghost use Rattle.tilt_report.specs.Report.{report_of_reach};
    ghost use Rattle.tilt_unit_load.specs.UnitReport.{shared, unit_report};

    ghost from_gives = { λ reach why. unit_report why ≡ shared (report_of_reach reach) };

    fn from(reach: ReachFault) -> Self {
        UnitLoadFault::Shared(Fault::from(reach))
    }
}

impl From<UnitFault> for UnitLoadFault<'_> {
    ghost use Rattle.std.specs.Prelude.{◌≡◌};
    ghost use Rattle.tilt_unit_load.specs.UnitReport.{report_of_units, unit_report};

    ghost from_gives = { λ units why. unit_report why ≡ report_of_units units };

    fn from(units: UnitFault) -> Self {
        match units {
            UnitFault::BadByte { at } => shared(Refusal::BadByte { at }),
            UnitFault::BigNumber { at } => shared(Refusal::BigNumber { at }),
            UnitFault::BadPoint { at } => own(UnitFileFault::BadPoint { at }),
            UnitFault::ManyDecimals { at } => own(UnitFileFault::ManyDecimals { at }),
            UnitFault::Syntax(syntax) => UnitLoadFault::Shared(Fault::from(syntax)),
            UnitFault::TicksWithPoint { at } => own(UnitFileFault::TicksWithPoint { at }),
            UnitFault::IllFormed(check) => UnitLoadFault::Shared(Fault::from(check)),
            UnitFault::Scale { statement, fault } => fault_of_scale(statement, fault),
            UnitFault::WholeTooLarge { statement } => {
                own_statement(UnitStatementFault::TooLarge, statement)
            }
            UnitFault::WholeTooLong { statement } => {
                own_statement(UnitStatementFault::TooLong, statement)
            }
            UnitFault::OutOfMemory => UnitLoadFault::Shared(Fault::OutOfMemory),
        }
    }
}

// The fault of a statement that has no translation to whole numbers.
fn fault_of_scale<'a>(statement: u32, fault: ScaleFault) -> UnitLoadFault<'a>
    ensures { unit_report result ≡ report_of_scale statement fault }
{
    match fault {
        ScaleFault::UnknownSource(_) => shared_statement(StatementFault::UnknownName, statement),
        ScaleFault::TypeMismatch(_) => shared_statement(StatementFault::TypeMismatch, statement),
        ScaleFault::ScalesDiffer(_) => own_statement(UnitStatementFault::ScalesDiffer, statement),
        ScaleFault::LiteralNotWhole(_) => {
            own_statement(UnitStatementFault::LiteralNotWhole, statement)
        }
        ScaleFault::LiteralTooLarge(_) => {
            own_statement(UnitStatementFault::LiteralTooLarge, statement)
        }
        ScaleFault::ScaleTooLarge(_) => own_statement(UnitStatementFault::ScaleTooLarge, statement),
        ScaleFault::BodyTooLarge(_) => own_statement(UnitStatementFault::TooLarge, statement),
        ScaleFault::TooManySources => shared(Refusal::TooManyStatements),
        ScaleFault::OutOfMemory => UnitLoadFault::Shared(Fault::OutOfMemory),
    }
}

// A refusal that every command can have.
fn shared<'a>(why: Refusal<'a>) -> UnitLoadFault<'a>
    ensures { result ≡ UnitLoadFault.Shared (Fault.Refused why.entry) }
{
    UnitLoadFault::Shared(Fault::Refused(why))
}

// The same of a statement.
fn shared_statement<'a>(fault: StatementFault, statement: u32) -> UnitLoadFault<'a>
    ensures { result ≡ UnitLoadFault.Shared (Fault.Refused (Refusal.BadStatement fault statement)) }
{
    shared(Refusal::BadStatement { fault, statement })
}

// A fault of the units.
fn own<'a>(fault: UnitFileFault) -> UnitLoadFault<'a>
    ensures { result ≡ UnitLoadFault.Own fault }
{
    UnitLoadFault::Own(fault)
}

// The same of a statement.
fn own_statement<'a>(fault: UnitStatementFault, statement: u32) -> UnitLoadFault<'a>
    ensures { result ≡ UnitLoadFault.Own (UnitFileFault.BadStatement fault statement) }
{
    own(UnitFileFault::BadStatement { fault, statement })
}
