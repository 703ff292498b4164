// The expressions of steps over the sources of a query.
ghost use Rattle.std.specs.Prelude.{◌≡◌, IfOk};
ghost use Rattle.tilt_operators.specs.Desugared.{IsNegatable, over_sources, reading, some_value, source_for, step_expr};
ghost use Rattle.tilt_operators.specs.Flow.{Join, Keep, Select, step_tree};
ghost use Rattle.tilt_syntax.specs.Tree.{expr_tree};

use crate::step::Step;
use std::alloc::{AllocError as OutOfMemory, Global};
use tilt_base::{Op1, Op2};
use tilt_lexer::Name;
use tilt_syntax::{Expr, choose, one, two};

// The step over the source before it.
pub(crate) fn step_expr(alloc: Global, before: &Name, step: &Step) -> Result<Expr, OutOfMemory>
    requires { IsNegatable (step_tree step.now) }
    ensures { IfOk result (λ e. expr_tree e ≡ step_expr before.now (step_tree step.now)) }
{
    match step {
        Step::Select(expr) => selected(alloc, before, expr),
        Step::Keep(expr) => kept(alloc, before, expr),
        Step::Shift(by) => {
            let name = before.copy()?;
            Ok(Expr::Read { name, offset: -*by })
        }
        Step::Window { reducer, width } => {
            let name = before.copy()?;
            Ok(Expr::Reduce {
                reducer: *reducer,
                name,
                from: -*width,
                to: 0,
            })
        }
        Step::Join { name, expr } => joined(alloc, before, name, expr),
    }
}

// The expression where the source before it has a value.
fn selected(alloc: Global, before: &Name, expr: &Expr) -> Result<Expr, OutOfMemory>
    ensures { IfOk result (λ e. expr_tree e ≡ step_expr before.now (Select (expr_tree expr.now))) }
{
    let body = over_sources(alloc, before, before, expr)?;
    let test = some_value(alloc, before)?;
    two(alloc, Op2::When, body, test)
}

// The source before it where the expression is true.
fn kept(alloc: Global, before: &Name, expr: &Expr) -> Result<Expr, OutOfMemory>
    ensures { IfOk result (λ e. expr_tree e ≡ step_expr before.now (Keep (expr_tree expr.now))) }
{
    let body = reading(before)?;
    let test = over_sources(alloc, before, before, expr)?;
    two(alloc, Op2::When, body, test)
}

// The expression where both sources have a value.
fn joined(alloc: Global, before: &Name, other: &Name, expr: &Expr) -> Result<Expr, OutOfMemory>
    ensures { IfOk result (λ e. expr_tree e ≡ step_expr before.now (Join other.now (expr_tree expr.now))) }
{
    let body = over_sources(alloc, before, other, expr)?;
    let left = some_value(alloc, before)?;
    let right = some_value(alloc, other)?;
    let test = two(alloc, Op2::And, left, right)?;
    two(alloc, Op2::When, body, test)
}

// A reading of the source as it is at the tick.
fn reading(name: &Name) -> Result<Expr, OutOfMemory>
    ensures { IfOk result (λ e. expr_tree e ≡ reading name.now) }
{
    let name = name.copy()?;
    Ok(Expr::Read { name, offset: 0 })
}

// The source isn't null.
fn some_value(alloc: Global, name: &Name) -> Result<Expr, OutOfMemory>
    ensures { IfOk result (λ e. expr_tree e ≡ some_value name.now) }
{
    let read = reading(name)?;
    let test = one(alloc, Op1::IsNull, read)?;
    one(alloc, Op1::Not, test)
}

// The expression over these sources in place of `v` and `w`.
fn over_sources(alloc: Global, v: &Name, w: &Name, expr: &Expr) -> Result<Expr, OutOfMemory>
    ensures { IfOk result (λ e. expr_tree e ≡ over_sources v.now w.now (expr_tree expr.now)) }
{
    match expr {
        Expr::Num(number) => Ok(Expr::Num(*number)),
        Expr::Truth(holds) => Ok(Expr::Truth(*holds)),
        Expr::Read { name, offset } => {
            let name = source_for(v, w, name).copy()?;
            Ok(Expr::Read {
                name,
                offset: *offset,
            })
        }
        Expr::Reduce {
            reducer,
            name,
            from,
            to,
        } => {
            let name = name.copy()?;
            Ok(Expr::Reduce {
                reducer: *reducer,
                name,
                from: *from,
                to: *to,
            })
        }
        Expr::One(op, a) => {
            let a = over_sources(alloc, v, w, a)?;
            one(alloc, *op, a)
        }
        Expr::Two(op, a, b) => {
            let a = over_sources(alloc, v, w, a)?;
            let b = over_sources(alloc, v, w, b)?;
            two(alloc, *op, a, b)
        }
        Expr::If(c, a, b) => {
            let c = over_sources(alloc, v, w, c)?;
            let a = over_sources(alloc, v, w, a)?;
            let b = over_sources(alloc, v, w, b)?;
            choose(alloc, c, a, b)
        }
    }
}

// The source that the name of an operand stands for.
fn source_for<'a>(v: &'a Name, w: &'a Name, name: &Name) -> &'a Name
    ensures { result.now ≡ source_for v.now w.now name.now }
{
    if name.bytes() == b"v".as_slice() {
        v
    } else {
        w
    }
}
