ghost use Rattle.std.specs.Prelude.{◌≡◌};
ghost use Rattle.tilt_syntax.specs.declared.fault.SyntaxFault.TheVariants.{OutOfMemory};

use std::alloc::AllocError;
use thiserror::Error;
use tilt_lexer::LexFault;

/// Why tokens aren't a query. Statements are counted from 1.
#[derive(Debug, Drop, PartialEq, Eq, Error)]
pub enum SyntaxFault {
    /// There are more than 256 statements.
    #[error("there are too many statements")]
    TooManyStatements,
    /// The statement has more than 256 tokens, including its `;`.
    #[error("statement {statement} is too long")]
    StatementTooLong { statement: u32 },
    /// The statement isn't in the grammar.
    #[error("statement {statement} has no reading")]
    Syntax { statement: u32 },
    /// The statement is an `emit` but not the last one, or the last one but not an `emit`. If there are no tokens, the fault names
    /// statement 1.
    #[error("statement {statement} has its emit in the wrong place")]
    EmitPlace { statement: u32 },
    /// There was no memory for the tree.
    #[error("out of memory")]
    OutOfMemory,
}

impl From<AllocError> for SyntaxFault {
    ghost from_gives = { λ _ fault. fault ≡ OutOfMemory };

    fn from(_: AllocError) -> Self {
        SyntaxFault::OutOfMemory
    }
}

/// Why a text isn't a query.
#[derive(Debug, Drop, PartialEq, Eq, Error)]
pub enum TextFault {
    /// The text can't be cut into tokens: its first faulty place. It is never an out-of-memory fault.
    #[error("{0}")]
    Lexical(LexFault),
    /// The text has tokens, but they aren't a query. It is never an out-of-memory fault.
    #[error("{0}")]
    Refused(SyntaxFault),
    /// There was no memory for the query.
    #[error("out of memory")]
    OutOfMemory,
}

impl From<LexFault> for TextFault {
    ghost use Rattle.std.specs.Prelude.{◌≡◌};
    ghost use Rattle.tilt_syntax.specs.Text.{of_place};

    ghost from_gives = { λ place fault. fault ≡ of_place place };

    fn from(place: LexFault) -> Self {
        match place {
            LexFault::BadByte { at } => TextFault::Lexical(LexFault::BadByte { at }),
            LexFault::BigNumber { at } => TextFault::Lexical(LexFault::BigNumber { at }),
            LexFault::OutOfMemory => TextFault::OutOfMemory,
        }
    }
}

impl From<SyntaxFault> for TextFault {
    ghost use Rattle.std.specs.Prelude.{◌≡◌};
    ghost use Rattle.tilt_syntax.specs.Text.{of_tokens};

    ghost from_gives = { λ syntax fault. fault ≡ of_tokens syntax };

    fn from(syntax: SyntaxFault) -> Self {
        match syntax {
            SyntaxFault::TooManyStatements => TextFault::Refused(SyntaxFault::TooManyStatements),
            SyntaxFault::StatementTooLong { statement } => {
                TextFault::Refused(SyntaxFault::StatementTooLong { statement })
            }
            SyntaxFault::Syntax { statement } => {
                TextFault::Refused(SyntaxFault::Syntax { statement })
            }
            SyntaxFault::EmitPlace { statement } => {
                TextFault::Refused(SyntaxFault::EmitPlace { statement })
            }
            SyntaxFault::OutOfMemory => TextFault::OutOfMemory,
        }
    }
}
