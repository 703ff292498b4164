// Which number of a text is where in its query.
ghost use Rattle.std.specs.Prelude.{◌≡◌, ◌+◌, ◌^◌, ◌<◌, ◌≤◌, ◌++◌, ◌∷◌, List, All, IfOk, map};
ghost use Rattle.tilt_lexer.specs.declared.token.Tok.{Tok};
ghost use Rattle.tilt_syntax.specs.Query.{kinds};
ghost use Rattle.tilt_syntax.specs.Tree.{expr_tree, statement_tree};
ghost use Rattle.tilt_unit_text.specs.Numbers.{IsWritten};
ghost use Rattle.tilt_unit_text.specs.Places.{counted, decimals_of, digits_of, expression_fault, grid_fault, number_at, query_fault};
ghost use Rattle.tilt_unit_text.specs.Places.{span_fault};
ghost use Rattle.tilt_unit_text.specs.Places.{statement_fault, digits_at, ticks_fault, whole_fault};

use crate::fault::UnitFault;
use crate::written::Written;
use std::alloc::{AllocError as OutOfMemory, Global};
use tilt_base::Span;
use tilt_lexer::{Tok, Token};
use tilt_syntax::{Every, Expr, Statement};

// The tokens with each number as its count, from 1 on.
pub(crate) fn count_numbers(alloc: Global, tokens: Vec<Token>) -> Result<Vec<Token>, OutOfMemory>
    ensures { IfOk result (λ counts. kinds counts.items ≡ counted 0 (kinds tokens.items)) }
{
    let mut counts = Vec::new(alloc);
    let mut count = 0;
    for token in tokens {
        count = push_counted(&mut counts, token, count)?;
    }
    Ok(counts)
}

// Adds one more token, after so many numbers, and says how many there are with it.
fn push_counted(counts: &mut Vec<Token>, token: Token, count: u64) -> Result<u64, OutOfMemory>
    requires { count + 1 < 2 ^ 63 }
    ensures counted { IfOk result (λ next. (rest : List Tok)
        → kinds counts.new.items ++ counted next rest ≡ kinds counts.old.items ++ counted count (token.kind ∷ rest)) }
    ensures few { IfOk result (λ next. next ≤ count + 1) }
{
    let Token { kind, start, end } = token;
    match kind {
        Tok::Number(_) => {
            let kind = Tok::Number((count + 1) as i64);
            counts.push(Token { kind, start, end })?;
            Ok(count + 1)
        }
        kind => {
            counts.push(Token { kind, start, end })?;
            Ok(count)
        }
    }
}

// The number with this count; there is none at 0.
pub(crate) fn number_at(numbers: &[Written], place: i64) -> Option<Written>
    ensures { result ≡ number_at numbers.now place }
{
    if place > 0 {
        numbers.get(place as usize - 1).copied()
    } else if place < 0 {
        numbers.get(-(place + 1) as usize).copied()
    } else {
        None
    }
}

// The digits of the number with this count, with a minus if the count has one.
pub(crate) fn digits_at(numbers: &[Written], place: i64) -> i64
    requires { All IsWritten numbers.now }
    ensures { result ≡ digits_at numbers.now place }
{
    let digits = match number_at(numbers, place) {
        None => 0,
        Some(written) => written.digits,
    };
    if place < 0 { -digits } else { digits }
}

// How many digits come after the point of the number with this count.
pub(crate) fn decimals_at(numbers: &[Written], place: i64) -> u64
    requires { All IsWritten numbers.now }
    ensures decimals { result ≡ decimals_of (number_at numbers.now place) }
    ensures few { result ≤ 18 }
{
    match number_at(numbers, place) {
        None => 0,
        Some(written) => written.decimals,
    }
}

// The fault of a number of ticks: it has a point.
fn ticks_fault(numbers: &[Written], place: i64) -> Option<UnitFault>
    ensures { result ≡ ticks_fault numbers.now place }
{
    let written = number_at(numbers, place)?;
    if written.decimals > 0 {
        return Some(UnitFault::TicksWithPoint { at: written.at });
    }
    None
}

// The first number of ticks with a point in an expression.
fn expression_fault(numbers: &[Written], expr: &Expr) -> Option<UnitFault>
    ensures { result ≡ expression_fault numbers.now (expr_tree expr.now) }
{
    match expr {
        Expr::Num(_) | Expr::Truth(_) => None,
        Expr::Read { offset, .. } => ticks_fault(numbers, *offset),
        Expr::Reduce { from, to, .. } => {
            ticks_fault(numbers, *from).or(ticks_fault(numbers, *to))
        }
        Expr::One(_, a) => expression_fault(numbers, a),
        Expr::Two(_, a, b) => expression_fault(numbers, a).or(expression_fault(numbers, b)),
        Expr::If(c, a, b) => expression_fault(numbers, c)
            .or(expression_fault(numbers, a))
            .or(expression_fault(numbers, b)),
    }
}

// The first number of ticks with a point in a span.
fn span_fault(numbers: &[Written], over: Option<Span>) -> Option<UnitFault>
    ensures { result ≡ span_fault numbers.now over }
{
    let span = over?;
    ticks_fault(numbers, span.start).or(ticks_fault(numbers, span.end))
}

// The first number of ticks with a point in a grid.
fn grid_fault(numbers: &[Written], every: Option<Every>) -> Option<UnitFault>
    ensures { result ≡ grid_fault numbers.now every }
{
    let every = every?;
    ticks_fault(numbers, every.period).or(ticks_fault(numbers, every.offset))
}

// The first number of ticks with a point in a statement.
fn statement_fault(numbers: &[Written], statement: &Statement) -> Option<UnitFault>
    ensures { result ≡ statement_fault numbers.now (statement_tree statement.now) }
{
    match statement {
        Statement::Input { .. } => None,
        Statement::Let {
            expr,
            over,
            every,
            ..
        } => expression_fault(numbers, expr)
            .or(span_fault(numbers, *over))
            .or(grid_fault(numbers, *every)),
        Statement::Emit { expr, over, every } => expression_fault(numbers, expr)
            .or(span_fault(numbers, Some(*over)))
            .or(grid_fault(numbers, *every)),
    }
}

// The first number of ticks with a point in a query.
pub(crate) fn query_fault(numbers: &[Written], statements: &[Statement]) -> Option<UnitFault>
    ensures { result ≡ query_fault numbers.now (map statement_tree statements.now) }
{
    for statement in statements {
        let fault = statement_fault(numbers, statement);
        if fault.is_some() {
            return fault;
        }
    }
    None
}
