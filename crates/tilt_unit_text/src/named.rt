// The query over whole numbers as statements.
ghost use Rattle.std.specs.Prelude.{◌≡◌, IfOk};
ghost use Rattle.tilt_core.specs.CoreTree.{tree_of};
ghost use Rattle.tilt_syntax.specs.Tree.{expr_tree};
ghost use Rattle.tilt_unit_text.specs.Named.{first, is_raised, named, number_or, operand, second, third};

use std::alloc::{AllocError as OutOfMemory, Global};
use tilt_base::Op2;
use tilt_core::Tree;
use tilt_syntax::{Expr, choose, one, two};

// The expression, with the numbers of its tree over whole numbers.
#[cycle(named)]
pub(crate) fn named(alloc: Global, expr: &Expr, tree: &Tree) -> Result<Expr, OutOfMemory>
    ensures { IfOk result (λ e. expr_tree e ≡ named (expr_tree expr.now) (tree_of tree.now)) }
{
    match expr {
        Expr::Num(number) => Ok(Expr::Num(number_or(tree, *number))),
        Expr::Truth(holds) => Ok(Expr::Truth(*holds)),
        Expr::Read { name, offset } => Ok(Expr::Read {
            name: name.copy()?,
            offset: *offset,
        }),
        Expr::Reduce {
            reducer,
            name,
            from,
            to,
        } => Ok(Expr::Reduce {
            reducer: *reducer,
            name: name.copy()?,
            from: *from,
            to: *to,
        }),
        Expr::One(op, a) => one(alloc, *op, named(alloc, a, first(tree))?),
        Expr::Two(op, a, b) => {
            let a = operand(alloc, a, first(tree))?;
            let b = operand(alloc, b, second(tree))?;
            two(alloc, *op, a, b)
        }
        Expr::If(c, a, b) => {
            let c = named(alloc, c, first(tree))?;
            let a = operand(alloc, a, second(tree))?;
            let b = operand(alloc, b, third(tree))?;
            choose(alloc, c, a, b)
        }
    }
}

// The same of an operand, which may be multiplied.
#[cycle(named)]
fn operand(alloc: Global, expr: &Expr, tree: &Tree) -> Result<Expr, OutOfMemory>
    ensures { IfOk result (λ e. expr_tree e ≡ operand (expr_tree expr.now) (tree_of tree.now)) }
{
    if !is_raised(expr, tree) {
        return named(alloc, expr, tree);
    }
    let factor = Expr::Num(number_or(first(tree), 1));
    let raised = named(alloc, expr, second(tree))?;
    two(alloc, Op2::Mul, factor, raised)
}

// Whether an operand is multiplied over whole numbers: it has one product more on its right side.
fn is_raised(expr: &Expr, tree: &Tree) -> bool
    ensures { result ≡ is_raised (expr_tree expr.now) (tree_of tree.now) }
{
    match (expr, tree) {
        (Expr::Two(Op2::Mul, _, b), Tree::Two(Op2::Mul, _, y)) => is_raised(b, y),
        (_, Tree::Two(Op2::Mul, _, _)) => true,
        _ => false,
    }
}

// The number that the tree is, or another one.
fn number_or(tree: &Tree, other: i64) -> i64
    ensures { result ≡ number_or (tree_of tree.now) other }
{
    match tree {
        Tree::Const(number) => *number,
        _ => other,
    }
}

// The first part of a tree; itself if it has none.
fn first(tree: &Tree) -> &Tree
    ensures { tree_of result.now ≡ first (tree_of tree.now) }
{
    match tree {
        Tree::One(_, a) | Tree::Two(_, a, _) | Tree::If(a, _, _) => a,
        leaf => leaf,
    }
}

// The second part of a tree; itself if it has none.
fn second(tree: &Tree) -> &Tree
    ensures { tree_of result.now ≡ second (tree_of tree.now) }
{
    match tree {
        Tree::Two(_, _, b) | Tree::If(_, b, _) => b,
        other => other,
    }
}

// The third part of a tree; itself if it has none.
fn third(tree: &Tree) -> &Tree
    ensures { tree_of result.now ≡ third (tree_of tree.now) }
{
    match tree {
        Tree::If(_, _, b) => b,
        other => other,
    }
}
