// From tokens to the query that they are.
ghost use Rattle.std.specs.Prelude.{◌≡◌, ◌≢◌, ◌↔◌, ◌≤◌, ◌<◌, ◌+◌, ◌⊎◌, List, [], ◌∷◌, ◌++◌};
ghost use Rattle.std.specs.Prelude.{length, map, All, IsTrue, IfOk, IfErr, OnOk, MatchOption, MatchResult, vec_len};
ghost use Rattle.tilt_lexer.specs.Tokens.{IsSound};
ghost use Rattle.tilt_syntax.specs.Grammar.{IsExpr};
ghost use Rattle.tilt_syntax.specs.Query.{AreGood, AreSound, FirstFault, HasFault, IsGood, IsInPlace, IsQueryOf, IsRefused};
ghost use Rattle.tilt_syntax.specs.Query.{kinds, statements};
ghost use Rattle.tilt_syntax.specs.Tree.{ExprTree, StatementTree, expr_tree, statement_tree};
ghost use Rattle.tilt_syntax.specs.declared.fault.SyntaxFault.{SyntaxFault};

use crate::cut::{count_statements, first_statement};
use crate::expr::Expr;
use crate::expression::expression;
use crate::fault::SyntaxFault;
use crate::level::Level;
use crate::query::Query;
use crate::reader::read_statement;
use crate::statement::Statement;
use std::alloc::{AllocError as OutOfMemory, Global};
use tilt_lexer::Token;

// The maximum number of statements in a query, and the maximum number of tokens in a statement, including its `;`.
pub(crate) const MOST: usize = 256;

/// The query that the tokens are. They are cut into statements after each `;`; what follows the last `;` is also a statement. The first
/// check is `TooManyStatements`: there are more than 256 statements. After it comes the first faulty statement, with the first of these
/// faults that holds in it. `StatementTooLong`: it has more than 256 tokens. `Syntax`: it isn't in the grammar. `EmitPlace`: it is an
/// `emit` but not the last, or the last but not an `emit`. If there are no tokens at all, the fault is `EmitPlace` of statement 1.
pub fn parse(alloc: Global, tokens: &[Token]) -> Result<Query, SyntaxFault>
    requires sound { All (λ token. IsSound token.kind) tokens.now }
    ensures query { IfOk result (λ query. IsQueryOf (kinds tokens.now) query) }
    ensures faulty { IfErr result (λ fault. fault ≢ SyntaxFault.OutOfMemory → IsRefused (kinds tokens.now) fault) }

    // Nothing else is: no other query, and no other fault.
    ensures only { (query : List StatementTree) → IsQueryOf (kinds tokens.now) query →
        MatchResult result (λ found. found ≡ query) (λ fault. fault ≡ SyntaxFault.OutOfMemory) }
    ensures first { (fault : SyntaxFault) → IsRefused (kinds tokens.now) fault →
        MatchResult result (λ _. ⊥) (λ found. (found ≡ fault) ⊎ (found ≡ SyntaxFault.OutOfMemory)) }
{
    if tokens.is_empty() {
        return Err(SyntaxFault::EmitPlace { statement: 1 });
    }
    if count_statements(tokens) > MOST {
        return Err(SyntaxFault::TooManyStatements);
    }
    let statements = good_statements(alloc, tokens)?;
    Ok(Query::new(statements))
}

/// The expression that exactly these tokens are, and `None` exactly if they are none. There are at most 256 tokens, since the depth of the
/// calls grows with them.
pub fn parse_expression(alloc: Global, tokens: &[Token]) -> Result<Option<Expr>, OutOfMemory>
    requires sound { All (λ token. IsSound token.kind) tokens.now }
    requires few { length tokens.now ≤ 256 }
    ensures found { IfOk result (λ found. MatchOption found
        ((tree : ExprTree) → ¬ (IsExpr 0 (kinds tokens.now) tree))
        (λ expr. IsExpr 0 (kinds tokens.now) (expr_tree expr))) }

    // Nothing else is.
    ensures only { (tree : ExprTree) → IsExpr 0 (kinds tokens.now) tree →
        IfOk result (λ found. MatchOption found ⊥ (λ expr. expr_tree expr ≡ tree)) }
{
    let Some((expr, rest)) = expression(alloc, Level::Choice, tokens)? else {
        return Ok(None);
    };
    if rest.is_empty() {
        Ok(Some(expr))
    } else {
        Ok(None)
    }
}

// The statements that the tokens are, or the fault of the first faulty one.
fn good_statements(alloc: Global, tokens: &[Token]) -> Result<Vec<Statement>, SyntaxFault>
    requires sound { AreSound (kinds tokens.now) }
    requires few { length (statements (kinds tokens.now)) ≤ 256 }
    ensures good { IfOk result (λ read. AreGood (statements (kinds tokens.now)) (map statement_tree read.items)) }
    ensures faulty { IfErr result (λ fault. fault ≢ SyntaxFault.OutOfMemory → FirstFault 1 (statements (kinds tokens.now)) fault) }
{
    let mut read = Vec::new(alloc);
    let mut rest = tokens;
    while !rest.is_empty() {
        let (first, behind) = first_statement(rest);
        let number = read.len() as u32 + 1;
        let statement = good_statement(alloc, first, behind, number)?;
        push_statement(&mut read, statement)?;
        rest = behind;
    }
    Ok(read)
}

// Adds a statement.
fn push_statement(read: &mut Vec<Statement>, statement: Statement) -> Result<(), OutOfMemory>
    ensures items { OnOk result (read.new.items ≡ read.old.items ++ statement ∷ []) }
    ensures len { OnOk result (vec_len read.new ≡ vec_len read.old + 1) }
{
    read.push(statement)?;
    Ok(())
}

// The statement of that number, which the first tokens are, before those after it.
fn good_statement(
    alloc: Global,
    tokens: &[Token],
    behind: &[Token],
    number: u32,
) -> Result<Statement, SyntaxFault>
    requires { AreSound (kinds tokens.now) }
    ensures good { IfOk result (λ s. IsGood (kinds tokens.now) (statements (kinds behind.now)) (statement_tree s)) }
    ensures faulty { IfErr result (λ fault. fault ≢ SyntaxFault.OutOfMemory
        → HasFault number (kinds tokens.now) (statements (kinds behind.now)) fault) }
{
    if tokens.len() > MOST {
        return Err(SyntaxFault::StatementTooLong { statement: number });
    }
    let Some(statement) = read_statement(alloc, tokens)? else {
        return Err(SyntaxFault::Syntax { statement: number });
    };
    if is_in_place(&statement, behind) {
        Ok(statement)
    } else {
        Err(SyntaxFault::EmitPlace { statement: number })
    }
}

// Whether the statement may come before those tokens: the last one is an `emit`, and no other.
fn is_in_place(statement: &Statement, behind: &[Token]) -> bool
    ensures { IsTrue result ↔ IsInPlace (statements (kinds behind.now)) (statement_tree statement.now) }
{
    match statement {
        Statement::Emit { .. } => behind.is_empty(),
        Statement::Input { .. } => !behind.is_empty(),
        Statement::Let { .. } => !behind.is_empty(),
    }
}
