// How many tokens a statement takes.
ghost use Rattle.std.specs.Prelude.{◌≡◌, ◌+◌, ◌<◌, ◌≤◌, MatchOption, Option, Some, length, map};
ghost use Rattle.tilt_syntax.specs.Grammar.{infix_of};
ghost use Rattle.tilt_syntax.specs.Printing.{level_of};
ghost use Rattle.tilt_syntax.specs.Tree.{expr_tree, statement_tree};
ghost use Rattle.tilt_unit_text.specs.Size.{IsPlaces, bound_size, domain_size, expr_size, grid_size, long_fault, offset_size};
ghost use Rattle.tilt_unit_text.specs.Size.{period_size, reading_size, size_in_place, span_size, statement_size};

use crate::fault::UnitFault;
use tilt_base::{Op1, Op2, Span};
use tilt_syntax::{Every, Expr, Statement};

// The most tokens that a statement may have.
const MOST: u32 = 256;

// The fault of the first statement that takes too many tokens.
pub(crate) fn long_fault(statements: &[Statement]) -> Option<UnitFault>
    requires { length statements.now ≤ 256 }
    ensures { result ≡ long_fault 1 (map statement_tree statements.now) }
{
    let mut number = 1;
    for statement in statements {
        if after_statement(statement, MOST).is_none() {
            return Some(UnitFault::WholeTooLong { statement: number });
        }
        number += 1;
    }
    None
}

// What is left of a number of tokens after those of a statement, or `None` if it takes more.
fn after_statement(statement: &Statement, budget: u32) -> Option<u32>
    ensures { MatchOption result (budget < statement_size (statement_tree statement.now))
        (λ rest. rest + statement_size (statement_tree statement.now) ≡ budget) }
{
    match statement {
        Statement::Input { .. } => budget.checked_sub(3),
        Statement::Let {
            expr,
            over,
            every,
            ..
        } => {
            let others = 4 + domain_size(*over) + grid_size(*every);
            after_expr(expr, budget.checked_sub(others)?)
        }
        Statement::Emit { expr, over, every } => {
            let others = 2 + span_size(*over) + grid_size(*every);
            after_expr(expr, budget.checked_sub(others)?)
        }
    }
}

// The same of an expression.
#[cycle(size)]
fn after_expr(expr: &Expr, budget: u32) -> Option<u32>
    ensures { MatchOption result (budget < expr_size (expr_tree expr.now)) (λ rest. rest + expr_size (expr_tree expr.now) ≡ budget) }
{
    match expr {
        Expr::Num(_) | Expr::Truth(_) => budget.checked_sub(1),
        Expr::Read { offset, .. } => budget.checked_sub(reading_size(*offset)),
        Expr::Reduce { from, to, .. } => {
            budget.checked_sub(7 + offset_size(*from) + offset_size(*to))
        }
        Expr::One(Op1::Neg, a) => after_operand(8, a, budget.checked_sub(1)?),
        Expr::One(Op1::Not, a) => after_operand(4, a, budget.checked_sub(1)?),
        Expr::One(Op1::IsNull, a) => after_expr(a, budget.checked_sub(3)?),
        Expr::Two(op, a, b) => {
            let places = places_of(*op);
            let rest = after_operand(places.left, a, budget.checked_sub(places.signs)?)?;
            after_operand(places.right, b, rest)
        }
        Expr::If(c, a, b) => {
            let rest = after_expr(c, budget.checked_sub(3)?)?;
            after_expr(b, after_expr(a, rest)?)
        }
    }
}

// The same of an operand, whose place asks for a level.
#[cycle(size)]
fn after_operand(place: u8, expr: &Expr, budget: u32) -> Option<u32>
    ensures { MatchOption result (budget < size_in_place place (level_of (expr_tree expr.now)) (expr_size (expr_tree expr.now)))
        (λ rest. rest + size_in_place place (level_of (expr_tree expr.now)) (expr_size (expr_tree expr.now)) ≡ budget) }
{
    if level_of(expr) < place {
        after_expr(expr, budget.checked_sub(2)?)
    } else {
        after_expr(expr, budget)
    }
}

// The level of an expression.
fn level_of(expr: &Expr) -> u8
    ensures { result ≡ level_of (expr_tree expr.now) }
{
    match expr {
        Expr::Num(_) | Expr::Truth(_) | Expr::Read { .. } | Expr::Reduce { .. } => 9,
        Expr::One(Op1::Neg, _) => 8,
        Expr::One(Op1::Not, _) => 4,
        Expr::One(Op1::IsNull, _) => 9,
        Expr::Two(op, _, _) => places_of(*op).level,
        Expr::If(_, _, _) => 0,
    }
}

/// How an operator on two operands is written: its level, the levels that the places of its operands ask for, and how many tokens it
/// takes beside them.
#[derive(Clone, Copy)]
pub(crate) struct Places {
    pub level: u8,
    pub left: u8,
    pub right: u8,
    pub signs: u32,
}

// How an operator is written.
fn places_of(op: Op2) -> Places
    ensures { IsPlaces (infix_of op) result }
{
    match op {
        Op2::When => between(1, 1, 2),
        Op2::Or => between(2, 2, 3),
        Op2::And => between(3, 3, 4),
        Op2::Eq | Op2::Ne | Op2::Lt | Op2::Le | Op2::Gt | Op2::Ge => between(5, 6, 6),
        Op2::Add | Op2::Sub => between(6, 6, 7),
        Op2::Mul | Op2::Div | Op2::Rem => between(7, 7, 8),
        Op2::IfNull => Places {
            level: 9,
            left: 0,
            right: 0,
            signs: 4,
        },
    }
}

// An operator that is written between its operands.
fn between(level: u8, left: u8, right: u8) -> Places
    ensures { result ≡ record { level = level; left = left; right = right; signs = 1 } }
{
    Places {
        level,
        left,
        right,
        signs: 1,
    }
}

// How many tokens a reading takes, by its offset.
fn reading_size(offset: i64) -> u32
    ensures { result ≡ reading_size offset }
{
    if offset == 0 { 1 } else { 6 }
}

// How many tokens an offset takes.
fn offset_size(offset: i64) -> u32
    ensures { result ≡ offset_size offset }
{
    if offset == 0 { 1 } else { 3 }
}

// How many tokens a bound takes.
fn bound_size(bound: i64) -> u32
    ensures { result ≡ bound_size bound }
{
    if bound < 0 { 2 } else { 1 }
}

// How many tokens a span takes.
fn span_size(span: Span) -> u32
    ensures size { result ≡ span_size span }
    ensures few { result ≤ 8 }
{
    4 + bound_size(span.start) + bound_size(span.end)
}

// The same of a span that may be missing.
fn domain_size(over: Option<Span>) -> u32
    ensures size { result ≡ domain_size over }
    ensures few { result ≤ 8 }
{
    match over {
        Some(span) => span_size(span),
        None => 0,
    }
}

// The same of a grid.
fn grid_size(every: Option<Every>) -> u32
    ensures size { result ≡ grid_size every }
    ensures few { result ≤ 4 }
{
    match every {
        Some(every) => period_size(every.offset),
        None => 0,
    }
}

// How many tokens a grid takes, by its offset.
fn period_size(offset: i64) -> u32
    ensures size { result ≡ period_size offset }
    ensures few { result ≤ 4 }
{
    if offset == 0 { 2 } else { 4 }
}
