// Expressions put together from their parts.
ghost use Rattle.std.specs.Prelude.{◌≡◌, IfOk};
ghost use Rattle.tilt_base.specs.Expression.{If, One, Two};
ghost use Rattle.tilt_syntax.specs.Tree.{expr_tree};

use crate::expr::Expr;
use std::alloc::{AllocError as OutOfMemory, Global};
use tilt_base::{Op1, Op2};

/// The operator on the expression.
pub fn one(alloc: Global, op: Op1, a: Expr) -> Result<Expr, OutOfMemory>
    ensures { IfOk result (λ e. expr_tree e ≡ One op (expr_tree a)) }
{
    let a = Box::new(alloc, a)?;
    Ok(Expr::One(op, a))
}

/// The operator on the two expressions.
pub fn two(alloc: Global, op: Op2, a: Expr, b: Expr) -> Result<Expr, OutOfMemory>
    ensures { IfOk result (λ e. expr_tree e ≡ Two op (expr_tree a) (expr_tree b)) }
{
    let a = Box::new(alloc, a)?;
    let b = Box::new(alloc, b)?;
    Ok(Expr::Two(op, a, b))
}

/// `if` the first `then` the second `else` the third.
pub fn choose(alloc: Global, c: Expr, a: Expr, b: Expr) -> Result<Expr, OutOfMemory>
    ensures { IfOk result (λ e. expr_tree e ≡ If (expr_tree c) (expr_tree a) (expr_tree b)) }
{
    let c = Box::new(alloc, c)?;
    let a = Box::new(alloc, a)?;
    let b = Box::new(alloc, b)?;
    Ok(Expr::If(c, a, b))
}
