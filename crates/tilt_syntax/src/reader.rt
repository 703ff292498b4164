// Statements, read from left to right without going back.
ghost use Rattle.std.specs.Prelude.{Option, IfOk, MatchOption};
ghost use Rattle.tilt_syntax.specs.Descent.{Comes, Found, Plan};
ghost use Rattle.tilt_syntax.specs.Query.{kinds, AreSound};
ghost use Rattle.tilt_syntax.specs.Statements.{emit_plan, input_plan, let_plan, statement_plan};
ghost use Rattle.tilt_syntax.specs.Tree.{StatementTree, statement_tree};

use crate::clauses::{domain, grid, is_end, span};
use crate::expression::expression;
use crate::front::{after_key, after_mark, first_name};
use crate::level::Level;
use crate::statement::Statement;
use std::alloc::{AllocError as OutOfMemory, Global};
use tilt_lexer::{Key, Mark, Token};

// The statement that exactly these tokens are, or `None` if they are none.
pub(crate) fn read_statement(
    alloc: Global,
    tokens: &[Token],
) -> Result<Option<Statement>, OutOfMemory>
    requires { AreSound (kinds tokens.now) }
    ensures { IfOk result (λ found. MatchOption found
        ((behind : StatementTree → Plan) → Comes (statement_plan (kinds tokens.now) behind) None)
        (λ s. (behind : StatementTree → Plan) (r : Option Found) → Comes (behind (statement_tree s)) r
        → Comes (statement_plan (kinds tokens.now) behind) r)) }
{
    if let Some(behind) = after_key(tokens, Key::Input) {
        return read_input(behind);
    }
    if let Some(behind) = after_key(tokens, Key::Let) {
        return read_let(alloc, behind);
    }
    match after_key(tokens, Key::Emit) {
        Some(behind) => read_emit(alloc, behind),
        None => Ok(None),
    }
}

// What follows `input`.
fn read_input(tokens: &[Token]) -> Result<Option<Statement>, OutOfMemory>
    requires { AreSound (kinds tokens.now) }
    ensures { IfOk result (λ found. MatchOption found
        ((behind : StatementTree → Plan) → Comes (input_plan (kinds tokens.now) behind) None)
        (λ s. (behind : StatementTree → Plan) (r : Option Found) → Comes (behind (statement_tree s)) r
        → Comes (input_plan (kinds tokens.now) behind) r)) }
{
    let Some((name, rest)) = first_name(tokens) else {
        return Ok(None);
    };
    if !is_end(rest) {
        return Ok(None);
    }
    let name = name.copy()?;
    Ok(Some(Statement::Input { name }))
}

// What follows `let`.
fn read_let(alloc: Global, tokens: &[Token]) -> Result<Option<Statement>, OutOfMemory>
    requires { AreSound (kinds tokens.now) }
    ensures { IfOk result (λ found. MatchOption found
        ((behind : StatementTree → Plan) → Comes (let_plan (kinds tokens.now) behind) None)
        (λ s. (behind : StatementTree → Plan) (r : Option Found) → Comes (behind (statement_tree s)) r
        → Comes (let_plan (kinds tokens.now) behind) r)) }
{
    let Some((name, named)) = first_name(tokens) else {
        return Ok(None);
    };
    let Some(body) = after_mark(named, Mark::Assign) else {
        return Ok(None);
    };
    let Some((expr, behind)) = expression(alloc, Level::Choice, body)? else {
        return Ok(None);
    };
    let Some((over, last)) = domain(behind) else {
        return Ok(None);
    };
    let Some((every, rest)) = grid(last) else {
        return Ok(None);
    };
    if !is_end(rest) {
        return Ok(None);
    }
    let name = name.copy()?;
    Ok(Some(Statement::Let {
        name,
        expr,
        over,
        every,
    }))
}

// What follows `emit`.
fn read_emit(alloc: Global, tokens: &[Token]) -> Result<Option<Statement>, OutOfMemory>
    requires { AreSound (kinds tokens.now) }
    ensures { IfOk result (λ found. MatchOption found
        ((behind : StatementTree → Plan) → Comes (emit_plan (kinds tokens.now) behind) None)
        (λ s. (behind : StatementTree → Plan) (r : Option Found) → Comes (behind (statement_tree s)) r
        → Comes (emit_plan (kinds tokens.now) behind) r)) }
{
    let Some((expr, behind)) = expression(alloc, Level::Choice, tokens)? else {
        return Ok(None);
    };
    let Some(bounds) = after_key(behind, Key::Over) else {
        return Ok(None);
    };
    let Some((over, last)) = span(bounds) else {
        return Ok(None);
    };
    let Some((every, rest)) = grid(last) else {
        return Ok(None);
    };
    if !is_end(rest) {
        return Ok(None);
    }
    Ok(Some(Statement::Emit { expr, over, every }))
}
