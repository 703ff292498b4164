// The expression that watches another one.
ghost use Rattle.std.specs.Prelude.{◌≡◌, IfOk};
ghost use Rattle.tilt_base.specs.Expression.{Leaf, Two};
ghost use Rattle.tilt_core.specs.CoreTree.{Reduce, tree_of};
ghost use Rattle.tilt_overflows.specs.Leaves.{is_never, leaves, leaves1, leaves2, leaves_window, null_alone, one_of};

use crate::tree::{copy, one, two};
use std::alloc::{AllocError as OutOfMemory, Global};
use tilt_base::{Op1, Op2, Reducer};
use tilt_core::Tree;

/// The expression that is 1 if a node of the expression leaves 64 bits, and else 0.
pub(crate) fn leaves(alloc: Global, tree: &Tree) -> Result<Tree, OutOfMemory>
    ensures { IfOk result (λ made. tree_of made ≡ leaves (tree_of tree.now)) }
{
    match tree {
        Tree::Const(_) | Tree::Read { .. } => Ok(Tree::Const(0)),
        Tree::Reduce {
            reducer,
            source,
            from,
            to,
        } => leaves_window(alloc, *reducer, *source, *from, *to),
        Tree::One(op, a) => {
            let inner = leaves(alloc, a)?;
            one_of(alloc, inner, leaves1(alloc, *op, a)?)
        }
        Tree::Two(op, a, b) => {
            let left = leaves(alloc, a)?;
            let right = leaves(alloc, b)?;
            let inner = one_of(alloc, left, right)?;
            one_of(alloc, inner, leaves2(alloc, *op, a, b)?)
        }
        Tree::If(c, a, b) => {
            let condition = leaves(alloc, c)?;
            let left = leaves(alloc, a)?;
            let right = leaves(alloc, b)?;
            let branches = one_of(alloc, left, right)?;
            one_of(alloc, condition, branches)
        }
    }
}

// The same of the result of an operator alone.
fn leaves1(alloc: Global, op: Op1, a: &Tree) -> Result<Tree, OutOfMemory>
    ensures { IfOk result (λ made. tree_of made ≡ leaves1 op (tree_of a.now)) }
{
    match op {
        Op1::Neg => {
            let negative = one(alloc, Op1::Neg, copy(alloc, a)?)?;
            null_alone(alloc, negative, copy(alloc, a)?)
        }
        Op1::Not | Op1::IsNull => Ok(Tree::Const(0)),
    }
}

fn leaves2(alloc: Global, op: Op2, a: &Tree, b: &Tree) -> Result<Tree, OutOfMemory>
    ensures { IfOk result (λ made. tree_of made ≡ leaves2 op (tree_of a.now) (tree_of b.now)) }
{
    match op {
        Op2::Add | Op2::Sub | Op2::Mul => null_beside(alloc, op, Op2::Eq, a, b),
        Op2::Div => null_beside(alloc, op, Op2::Rem, a, b),
        _ => Ok(Tree::Const(0)),
    }
}

// The same of a window.
fn leaves_window(
    alloc: Global,
    reducer: Reducer,
    source: u32,
    from: i64,
    to: i64,
) -> Result<Tree, OutOfMemory>
    ensures { IfOk result (λ made. tree_of made ≡ leaves_window reducer source from to) }
{
    match reducer {
        Reducer::Sum => {
            let sum = window(Reducer::Sum, source, from, to);
            null_alone(alloc, sum, window(Reducer::Count, source, from, to))
        }
        _ => Ok(Tree::Const(0)),
    }
}

// A reducer on a window.
fn window(reducer: Reducer, source: u32, from: i64, to: i64) -> Tree
    ensures { tree_of result ≡ Leaf (Reduce reducer source from to) }
{
    Tree::Reduce {
        reducer,
        source,
        from,
        to,
    }
}

// 1 if the first operator gives null on the two expressions and the second doesn't, else 0.
fn null_beside(alloc: Global, op: Op2, other: Op2, a: &Tree, b: &Tree) -> Result<Tree, OutOfMemory>
    ensures { IfOk result (λ made. tree_of made
        ≡ null_alone (Two op (tree_of a.now) (tree_of b.now)) (Two other (tree_of a.now) (tree_of b.now))) }
{
    let given = two(alloc, op, copy(alloc, a)?, copy(alloc, b)?)?;
    let beside = two(alloc, other, copy(alloc, a)?, copy(alloc, b)?)?;
    null_alone(alloc, given, beside)
}

// 1 if the first is null and the second isn't, else 0.
fn null_alone(alloc: Global, x: Tree, y: Tree) -> Result<Tree, OutOfMemory>
    ensures { IfOk result (λ made. tree_of made ≡ null_alone (tree_of x) (tree_of y)) }
{
    let left = one(alloc, Op1::IsNull, x)?;
    let right = one(alloc, Op1::IsNull, y)?;
    two(alloc, Op2::Gt, left, right)
}

// 1 if one of the two is 1, else 0.
fn one_of(alloc: Global, x: Tree, y: Tree) -> Result<Tree, OutOfMemory>
    ensures { IfOk result (λ made. tree_of made ≡ one_of (tree_of x) (tree_of y)) }
{
    if is_never(&x) {
        return Ok(y);
    }
    if is_never(&y) {
        return Ok(x);
    }
    two(alloc, Op2::Or, x, y)
}

// Whether the expression is 0 at every tick, because it is written so.
fn is_never(tree: &Tree) -> bool
    ensures { result ≡ is_never (tree_of tree.now) }
{
    match tree {
        Tree::Const(number) => *number == 0,
        _ => false,
    }
}
