// The expressions of steps.
ghost use Rattle.std.specs.Prelude.{◌≡◌, ◌≤◌, length, IfOk, MatchOption};
ghost use Rattle.tilt_operators.specs.Steps.{IsExprOver, is_operand, is_over};
ghost use Rattle.tilt_syntax.specs.Query.{kinds, AreSound};
ghost use Rattle.tilt_syntax.specs.Tree.{ExprTree, expr_tree};

use std::alloc::{AllocError as OutOfMemory, Global};
use tilt_lexer::{Name, Token};
use tilt_syntax::{Expr, parse_expression};

/// What an expression of a step may read: the value of the list before it, or also the value of a joined series.
#[derive(Clone, Copy, Debug, PartialEq, Eq)]
pub enum Operands {
    /// `v` alone.
    Value,
    /// `v` and `w`.
    Both,
}

// The expression over such operands that exactly the tokens are.
pub(crate) fn read_expr(
    alloc: Global,
    operands: Operands,
    tokens: &[Token],
) -> Result<Option<Expr>, OutOfMemory>
    requires sound { AreSound (kinds tokens.now) }
    requires few { length (kinds tokens.now) ≤ 256 }
    ensures { IfOk result (λ found. MatchOption found
        ((e : ExprTree) → ¬ (IsExprOver operands (kinds tokens.now) e))
        (λ expr. IsExprOver operands (kinds tokens.now) (expr_tree expr))) }
{
    let Some(expr) = parse_expression(alloc, tokens)? else {
        return Ok(None);
    };
    if is_over(operands, &expr) {
        Ok(Some(expr))
    } else {
        Ok(None)
    }
}

// Whether the expression has no window, and each of its readings has the offset 0 and the name of an operand.
fn is_over(operands: Operands, expr: &Expr) -> bool
    ensures { result ≡ is_over operands (expr_tree expr.now) }
{
    match expr {
        Expr::Num(_) | Expr::Truth(_) => true,
        Expr::Read { name, offset } => is_operand(operands, name) && *offset == 0,
        Expr::Reduce { .. } => false,
        Expr::One(_, a) => is_over(operands, a),
        Expr::Two(_, a, b) => is_over(operands, a) && is_over(operands, b),
        Expr::If(c, a, b) => is_over(operands, c) && is_over(operands, a) && is_over(operands, b),
    }
}

// Whether the name is an operand's.
fn is_operand(operands: Operands, name: &Name) -> bool
    ensures { result ≡ is_operand operands name.now }
{
    let is_value = name.bytes() == b"v".as_slice();
    match operands {
        Operands::Value => is_value,
        Operands::Both => is_value || name.bytes() == b"w".as_slice(),
    }
}
