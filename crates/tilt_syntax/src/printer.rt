// The text of a query.
ghost use Rattle.std.specs.Prelude.{◌≡◌, ◌++◌, map, IfOk, OnOk, MatchOption};
ghost use Rattle.tilt_base.specs.Expression.{One, Two};
ghost use Rattle.tilt_syntax.specs.Grammar.{infix_of};
ghost use Rattle.tilt_syntax.specs.Sign.{IsWritten};
ghost use Rattle.tilt_syntax.specs.Printing.{atom_text, level_of, in_place, offset_text, reading_text, expr_text};
ghost use Rattle.tilt_syntax.specs.Printing.{span_text, domain_text, from_text, grid_text, statement_text, query_text, ReadsBack};
ghost use Rattle.tilt_syntax.specs.Tree.{Reduce, expr_tree, statement_tree};

use crate::every::Every;
use crate::expr::Expr;
use crate::query::Query;
use crate::statement::Statement;
use std::alloc::{AllocError as OutOfMemory, Global};
use tilt_base::{Op1, Op2, Reducer, Span};
use tilt_lexer::Name;
use tilt_text::{put, put_number};

/// The text of the query: one line for each statement, with parentheses only where they are needed. It reads as this query
/// and as no other.
pub fn print(alloc: Global, query: &Query) -> Result<Vec<u8>, OutOfMemory>
    ensures text { IfOk result (λ text. text.items ≡ query_text query.now) }

    // The text reads as this query and as no other, and no statement can be written with fewer tokens.
    ensures reads_back { IfOk result (λ text. ReadsBack text.items query.now) }
{
    let mut text = Vec::new(alloc);
    put_statements(&mut text, query.statements())?;
    Ok(text)
}

// Appends the lines of statements.
fn put_statements(text: &mut Vec<u8>, statements: &[Statement]) -> Result<(), OutOfMemory>
    ensures { OnOk result (text.new.items ≡ text.old.items ++ query_text (map statement_tree statements.now)) }
{
    for statement in statements {
        put_statement(text, statement)?;
    }
    Ok(())
}

// Appends the line of a statement.
fn put_statement(text: &mut Vec<u8>, statement: &Statement) -> Result<(), OutOfMemory>
    ensures { OnOk result (text.new.items ≡ text.old.items ++ statement_text (statement_tree statement.now)) }
{
    match statement {
        Statement::Input { name } => {
            put(text, b"input ")?;
            put(text, name.bytes())?;
        }
        Statement::Let {
            name,
            expr,
            over,
            every,
        } => {
            put(text, b"let ")?;
            put(text, name.bytes())?;
            put(text, b" = ")?;
            put_expr(text, expr)?;
            put_domain(text, over)?;
            put_grid(text, *every)?;
        }
        Statement::Emit { expr, over, every } => {
            put(text, b"emit ")?;
            put_expr(text, expr)?;
            put_span(text, over)?;
            put_grid(text, *every)?;
        }
    }
    put(text, b";\n")
}

// Appends ` over (s, e]` if there is a span.
fn put_domain(text: &mut Vec<u8>, over: &Option<Span>) -> Result<(), OutOfMemory>
    ensures { OnOk result (text.new.items ≡ text.old.items ++ domain_text over.now) }
{
    match over {
        Some(span) => put_span(text, span),
        None => Ok(()),
    }
}

// Appends ` over (s, e]`.
fn put_span(text: &mut Vec<u8>, span: &Span) -> Result<(), OutOfMemory>
    ensures { OnOk result (text.new.items ≡ text.old.items ++ span_text span.now) }
{
    put(text, b" over (")?;
    put_number(text, span.start)?;
    put(text, b", ")?;
    put_number(text, span.end)?;
    put(text, b"]")
}

// Appends ` every p` or ` every p from o` if there is a grid.
fn put_grid(text: &mut Vec<u8>, every: Option<Every>) -> Result<(), OutOfMemory>
    ensures { OnOk result (text.new.items ≡ text.old.items ++ grid_text every) }
{
    match every {
        Some(every) => {
            put(text, b" every ")?;
            put_number(text, every.period)?;
            put_from(text, every.offset)
        }
        None => Ok(()),
    }
}

// Appends ` from o` if the offset isn't 0.
fn put_from(text: &mut Vec<u8>, offset: i64) -> Result<(), OutOfMemory>
    ensures { OnOk result (text.new.items ≡ text.old.items ++ from_text offset) }
{
    if offset == 0 {
        return Ok(());
    }
    put(text, b" from ")?;
    put_number(text, offset)
}

// Appends an expression, without parentheses around it.
#[cycle(expression)]
fn put_expr(text: &mut Vec<u8>, expr: &Expr) -> Result<(), OutOfMemory>
    ensures { OnOk result (text.new.items ≡ text.old.items ++ expr_text (expr_tree expr.now)) }
{
    match expr {
        Expr::Num(number) => put_number(text, *number),
        Expr::Truth(true) => put(text, b"true"),
        Expr::Truth(false) => put(text, b"false"),
        Expr::Read { name, offset } => put_reading(text, name, *offset),
        Expr::Reduce {
            reducer,
            name,
            from,
            to,
        } => put_window(text, *reducer, name, *from, *to),
        Expr::One(Op1::Neg, a) => {
            put(text, b"-")?;
            put_operand(text, 8, a)
        }
        Expr::One(Op1::Not, a) => {
            put(text, b"not ")?;
            put_operand(text, 4, a)
        }
        Expr::One(Op1::IsNull, a) => {
            put(text, b"isnull(")?;
            put_expr(text, a)?;
            put(text, b")")
        }
        Expr::Two(op, a, b) => put_two(text, *op, a, b),
        Expr::If(c, a, b) => {
            put(text, b"if ")?;
            put_expr(text, c)?;
            put(text, b" then ")?;
            put_expr(text, a)?;
            put(text, b" else ")?;
            put_expr(text, b)
        }
    }
}

// Appends an operator on two expressions.
#[cycle(expression)]
fn put_two(text: &mut Vec<u8>, op: Op2, a: &Expr, b: &Expr) -> Result<(), OutOfMemory>
    ensures { OnOk result (text.new.items
        ≡ text.old.items ++ expr_text (Two op (expr_tree a.now) (expr_tree b.now))) }
{
    match infix_of(op) {
        Some(infix) => {
            put_operand(text, infix.left, a)?;
            put(text, b" ")?;
            put(text, infix.sign)?;
            put(text, b" ")?;
            put_operand(text, infix.right, b)
        }
        None => {
            put(text, b"ifnull(")?;
            put_expr(text, a)?;
            put(text, b", ")?;
            put_expr(text, b)?;
            put(text, b")")
        }
    }
}

// Appends an expression, in parentheses if its place asks for a tighter level than its own.
#[cycle(expression)]
fn put_operand(text: &mut Vec<u8>, place: u8, expr: &Expr) -> Result<(), OutOfMemory>
    ensures { OnOk result (text.new.items
        ≡ text.old.items ++ in_place place (level_of (expr_tree expr.now)) (expr_text (expr_tree expr.now))) }
{
    if level_of(expr) < place {
        put(text, b"(")?;
        put_expr(text, expr)?;
        put(text, b")")
    } else {
        put_expr(text, expr)
    }
}

// The level of an expression.
fn level_of(expr: &Expr) -> u8
    ensures { result ≡ level_of (expr_tree expr.now) }
{
    match expr {
        Expr::Num(_) | Expr::Truth(_) | Expr::Read { .. } | Expr::Reduce { .. } => 9,
        Expr::One(Op1::Neg, _) => 8,
        Expr::One(Op1::Not, _) => 4,
        Expr::One(Op1::IsNull, _) => 9,
        Expr::Two(op, _, _) => match infix_of(*op) {
            Some(infix) => infix.level,
            None => 9,
        },
        Expr::If(_, _, _) => 0,
    }
}

// How an operator is written between its operands: its sign, its level, and the levels that the places of its operands ask for.
#[derive(Clone, Copy)]
struct Infix {
    sign: &'static [u8],
    level: u8,
    left: u8,
    right: u8,
}

// How an operator is written between its operands, or `None` if it is written as a call.
fn infix_of(op: Op2) -> Option<Infix>
    ensures { IsWritten (infix_of op) result }
{
    match op {
        Op2::When => between(b"when", 1, 1, 2),
        Op2::Or => between(b"or", 2, 2, 3),
        Op2::And => between(b"and", 3, 3, 4),
        Op2::Eq => between(b"==", 5, 6, 6),
        Op2::Ne => between(b"!=", 5, 6, 6),
        Op2::Lt => between(b"<", 5, 6, 6),
        Op2::Le => between(b"<=", 5, 6, 6),
        Op2::Gt => between(b">", 5, 6, 6),
        Op2::Ge => between(b">=", 5, 6, 6),
        Op2::Add => between(b"+", 6, 6, 7),
        Op2::Sub => between(b"-", 6, 6, 7),
        Op2::Mul => between(b"*", 7, 7, 8),
        Op2::Div => between(b"/", 7, 7, 8),
        Op2::Rem => between(b"%", 7, 7, 8),
        Op2::IfNull => None,
    }
}

// An operator that is written between its operands.
fn between(sign: &'static [u8], level: u8, left: u8, right: u8) -> Option<Infix>
    ensures { MatchOption result ⊥ (λ w. w.sign.now ≡ sign.now × w.level ≡ level × w.left ≡ left × w.right ≡ right) }
{
    Some(Infix {
        sign,
        level,
        left,
        right,
    })
}

// Appends what the reducer gives on a window.
fn put_window(
    text: &mut Vec<u8>,
    reducer: Reducer,
    name: &Name,
    from: i64,
    to: i64,
) -> Result<(), OutOfMemory>
    ensures { OnOk result (text.new.items ≡ text.old.items ++ atom_text (Reduce reducer name.now from to)) }
{
    put(text, reducer.word())?;
    put(text, b"(")?;
    put(text, name.bytes())?;
    put(text, b"[")?;
    put_offset(text, from)?;
    put(text, b":")?;
    put_offset(text, to)?;
    put(text, b"])")
}

// Appends `x`, or `x[t-3]`.
fn put_reading(text: &mut Vec<u8>, name: &Name, offset: i64) -> Result<(), OutOfMemory>
    ensures { OnOk result (text.new.items ≡ text.old.items ++ reading_text name.now offset) }
{
    put(text, name.bytes())?;
    if offset == 0 {
        return Ok(());
    }
    put(text, b"[")?;
    put_offset(text, offset)?;
    put(text, b"]")
}

// Appends `t`, `t+3` or `t-3`.
fn put_offset(text: &mut Vec<u8>, offset: i64) -> Result<(), OutOfMemory>
    ensures { OnOk result (text.new.items ≡ text.old.items ++ offset_text offset) }
{
    if offset == 0 {
        put(text, b"t")
    } else if offset > 0 {
        put(text, b"t+")?;
        put_number(text, offset)
    } else {
        put(text, b"t")?;
        put_number(text, offset)
    }
}
