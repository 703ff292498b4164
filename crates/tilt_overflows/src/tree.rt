// Expressions: copies, operators and sizes.
ghost use Rattle.std.specs.Prelude.{◌≡◌, ◌+◌, ◌<◌, IfOk, MatchOption};
ghost use Rattle.tilt_base.specs.Expression.{One, Two};
ghost use Rattle.tilt_core.specs.CoreTree.{nodes, tree_of};

use std::alloc::{AllocError as OutOfMemory, Global};
use tilt_base::{Op1, Op2};
use tilt_core::Tree;

/// An equal expression.
pub(crate) fn copy(alloc: Global, tree: &Tree) -> Result<Tree, OutOfMemory>
    ensures { IfOk result (λ made. tree_of made ≡ tree_of tree.now) }
{
    match tree {
        Tree::Const(number) => Ok(Tree::Const(*number)),
        Tree::Read { source, offset } => Ok(Tree::Read {
            source: *source,
            offset: *offset,
        }),
        Tree::Reduce {
            reducer,
            source,
            from,
            to,
        } => Ok(Tree::Reduce {
            reducer: *reducer,
            source: *source,
            from: *from,
            to: *to,
        }),
        Tree::One(op, a) => one(alloc, *op, copy(alloc, a)?),
        Tree::Two(op, a, b) => two(alloc, *op, copy(alloc, a)?, copy(alloc, b)?),
        Tree::If(c, a, b) => {
            let c = Box::new(alloc, copy(alloc, c)?)?;
            let a = Box::new(alloc, copy(alloc, a)?)?;
            let b = Box::new(alloc, copy(alloc, b)?)?;
            Ok(Tree::If(c, a, b))
        }
    }
}

/// The operator on the expression.
pub(crate) fn one(alloc: Global, op: Op1, a: Tree) -> Result<Tree, OutOfMemory>
    ensures { IfOk result (λ tree. tree_of tree ≡ One op (tree_of a)) }
{
    let a = Box::new(alloc, a)?;
    Ok(Tree::One(op, a))
}

/// The operator on the two expressions.
pub(crate) fn two(alloc: Global, op: Op2, a: Tree, b: Tree) -> Result<Tree, OutOfMemory>
    ensures { IfOk result (λ tree. tree_of tree ≡ Two op (tree_of a) (tree_of b)) }
{
    let a = Box::new(alloc, a)?;
    let b = Box::new(alloc, b)?;
    Ok(Tree::Two(op, a, b))
}

/// What is left of a number of nodes after the nodes of an expression, or `None` if it has more.
pub(crate) fn budget_after(tree: &Tree, budget: u32) -> Option<u32>
    ensures { MatchOption result (budget < nodes (tree_of tree.now)) (λ rest. rest + nodes (tree_of tree.now) ≡ budget) }
{
    match tree {
        Tree::Const(_) | Tree::Read { .. } | Tree::Reduce { .. } => budget.checked_sub(1),
        Tree::One(_, a) => budget_after(a, budget.checked_sub(1)?),
        Tree::Two(_, a, b) => budget_after(b, budget_after(a, budget.checked_sub(1)?)?),
        Tree::If(c, a, b) => {
            let rest = budget_after(c, budget.checked_sub(1)?)?;
            budget_after(b, budget_after(a, rest)?)
        }
    }
}
