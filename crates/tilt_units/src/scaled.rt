// Expressions over whole numbers, and their quantities.
ghost use Rattle.std.specs.Prelude.{◌≡◌, ◌<◌, ◌≤◌, ◌+◌, ◌^◌, ◌*ℤ◌, pos, if◌then◌else◌, IfOk, None};
ghost use Rattle.tilt_base.specs.Expression.{If, Leaf, One, Two};
ghost use Rattle.tilt_base.specs.Number.{within_64_bits};
ghost use Rattle.tilt_base.specs.declared.operator.Op2.TheVariants.{When};
ghost use Rattle.tilt_core.specs.CoreTree.{Const, nodes, tree_of};
ghost use Rattle.tilt_units.specs.DecimalTree.{Read, Reduce, literal_of, unit_tree};
ghost use Rattle.tilt_units.specs.Scale.{common_scale, dividend_factor, product_scale, quotient_scale};
ghost use Rattle.tilt_units.specs.Scaling.{Gives, aligned, aligned_by, aligned_numbers};
ghost use Rattle.tilt_units.specs.Scaling.{aligned_trees, exact_quotient, in_common, literal_at};
ghost use Rattle.tilt_units.specs.Scaling.{numbers_of, quantity_at, quantity_of_one, quantity_of_reducer, raised, scale_of, scaled_tree};
ghost use Rattle.tilt_units.specs.Scaling.{joined_truths, product_of, quotient_of, scaled, scaled_if, scaled_two, truth_of};
ghost use Rattle.tilt_units.specs.Scaling.{compared_numbers, is_truth, joined_numbers, later, scaled_aligned, scaled_one};
ghost use Rattle.tilt_units.specs.declared.quantity.Quantity.TheVariants.{Number, Truth};

use crate::decimal::Decimal;
use crate::fault::ScaleFault;
use crate::place::Place;
use crate::quantity::Quantity;
use crate::scale::Scale;
use crate::tree::DecimalTree;
use std::alloc::{AllocError as OutOfMemory, Global};
use tilt_base::{Op1, Op2, Reducer};
use tilt_core::Tree;

/// An expression over whole numbers, and what it represents.
#[derive(Debug, Drop)]
pub(crate) struct Scaled {
    pub tree: Tree,
    pub quantity: Quantity,
}

/// The expression over whole numbers, and what it represents, over sources that represent these quantities. Otherwise the fault of
/// the first node that has one, in the order in which nodes are finished: operands before their operator, from left to right.
#[cycle(scaled)]
pub(crate) fn scale_expression(
    alloc: Global,
    sources: &[Quantity],
    place: Place,
    tree: &DecimalTree,
) -> Result<Scaled, ScaleFault>
    requires { place.node + nodes (unit_tree tree.now) < 2 ^ 32 }
    ensures { Gives scaled_tree result (scaled sources.now place (unit_tree tree.now)) }
{
    match tree {
        DecimalTree::Literal(decimal) => Ok(literal(*decimal)),
        DecimalTree::Truth(holds) => Ok(truth(*holds)),
        DecimalTree::Read { source, offset } => read(place, sources, *source, *offset),
        DecimalTree::Reduce {
            reducer,
            source,
            from,
            to,
        } => reduce(place, sources, *reducer, *source, (*from, *to)),
        DecimalTree::One(op, a) => {
            let a = scale_expression(alloc, sources, later(place, 1), a)?;
            scale_one(alloc, place, *op, a)
        }
        DecimalTree::Two(op, a, b) => {
            let literals = (literal_of(a), literal_of(b));
            let second = later(place, 1 + nodes(a));
            let a = scale_expression(alloc, sources, later(place, 1), a)?;
            let b = scale_expression(alloc, sources, second, b)?;
            scale_two(alloc, place, *op, literals, (a, b))
        }
        DecimalTree::If(c, a, b) => {
            let literals = (literal_of(a), literal_of(b));
            let second = later(place, 1 + nodes(c));
            let third = later(place, 1 + nodes(c) + nodes(a));
            let c = scale_expression(alloc, sources, later(place, 1), c)?;
            let a = scale_expression(alloc, sources, second, a)?;
            let b = scale_expression(alloc, sources, third, b)?;
            scale_if(alloc, place, literals, (c, a, b))
        }
    }
}

// A number in units.
fn literal(decimal: Decimal) -> Scaled
    ensures { scaled_tree result ≡ record { tree = Leaf (Const decimal.number); quantity = Number decimal.scale } }
{
    Scaled {
        tree: Tree::Const(decimal.number),
        quantity: Quantity::Number(decimal.scale),
    }
}

// A truth value.
fn truth(holds: bool) -> Scaled
    ensures { scaled_tree result ≡ record { tree = Leaf (Const (if holds then pos 1 else pos 0)); quantity = Truth } }
{
    Scaled {
        tree: Tree::Const(i64::from(holds)),
        quantity: Quantity::Truth,
    }
}

// A reading of a source.
fn read(place: Place, sources: &[Quantity], source: u32, offset: i64) -> Result<Scaled, ScaleFault>
    ensures { Gives scaled_tree result (scaled sources.now place (Leaf (Read source offset))) }
{
    let quantity = quantity_at(place, sources, source)?;
    let tree = Tree::Read { source, offset };
    Ok(Scaled { tree, quantity })
}

// A reducer on a window, by its two ends.
fn reduce(
    place: Place,
    sources: &[Quantity],
    reducer: Reducer,
    source: u32,
    ends: (i64, i64),
) -> Result<Scaled, ScaleFault>
    ensures { Gives scaled_tree result (scaled sources.now place (Leaf (Reduce reducer source ends.0 ends.1))) }
{
    let quantity = quantity_at(place, sources, source)?;
    let quantity = quantity_of_reducer(place, reducer, quantity)?;
    let (from, to) = ends;
    let tree = Tree::Reduce {
        reducer,
        source,
        from,
        to,
    };
    Ok(Scaled { tree, quantity })
}

// The place that is so many nodes later.
fn later(place: Place, count: u32) -> Place
    requires { place.node + count < 2 ^ 32 }
    ensures { result ≡ later place count }
{
    Place {
        definition: place.definition,
        node: place.node + count,
    }
}

// How many nodes an expression has.
fn nodes(tree: &DecimalTree) -> u32
    requires { nodes (unit_tree tree.now) < 2 ^ 32 }
    ensures { result ≡ nodes (unit_tree tree.now) }
{
    match tree {
        DecimalTree::Literal(_)
        | DecimalTree::Truth(_)
        | DecimalTree::Read { .. }
        | DecimalTree::Reduce { .. } => 1,
        DecimalTree::One(_, a) => 1 + nodes(a),
        DecimalTree::Two(_, a, b) => 1 + nodes(a) + nodes(b),
        DecimalTree::If(c, a, b) => 1 + nodes(c) + nodes(a) + nodes(b),
    }
}

// An operator on one expression.
fn scale_one(alloc: Global, place: Place, op: Op1, x: Scaled) -> Result<Scaled, ScaleFault>
    ensures { Gives scaled_tree result (scaled_one place op (scaled_tree x)) }
{
    let quantity = quantity_of_one(place, op, x.quantity)?;
    let tree = one(alloc, op, x.tree)?;
    Ok(Scaled { tree, quantity })
}

// An operator on two expressions, of which each is a literal, or isn't.
fn scale_two(
    alloc: Global,
    place: Place,
    op: Op2,
    literals: (Option<Decimal>, Option<Decimal>),
    operands: (Scaled, Scaled),
) -> Result<Scaled, ScaleFault>
    ensures { Gives scaled_tree result
        (scaled_two place op literals.0 literals.1 (scaled_tree operands.0) (scaled_tree operands.1)) }
{
    let (x, y) = operands;
    match op {
        Op2::Mul => product_of(alloc, place, x, y),
        Op2::Div => quotient_of(alloc, place, x, y),
        Op2::And | Op2::Or => join_truths(alloc, place, op, x, y),
        Op2::When => when(alloc, place, x, y),
        _ => {
            let a = align(alloc, place, literals, x, y)?;
            scale_aligned(alloc, place, op, a)
        }
    }
}

// An operator on aligned expressions.
fn scale_aligned(alloc: Global, place: Place, op: Op2, a: Aligned) -> Result<Scaled, ScaleFault>
    ensures { Gives scaled_tree result (scaled_aligned place op (aligned_trees a)) }
{
    match op {
        Op2::Add | Op2::Sub | Op2::Rem => join_numbers(alloc, place, op, a),
        Op2::Lt | Op2::Le | Op2::Gt | Op2::Ge => compare_numbers(alloc, place, op, a),
        Op2::IfNull => {
            let quantity = a.quantity;
            let tree = two(alloc, op, a.left, a.right)?;
            Ok(Scaled { tree, quantity })
        }
        _ => {
            let tree = two(alloc, op, a.left, a.right)?;
            Ok(Scaled {
                tree,
                quantity: Quantity::Truth,
            })
        }
    }
}

// An expression where a condition is true.
fn when(alloc: Global, place: Place, x: Scaled, c: Scaled) -> Result<Scaled, ScaleFault>
    ensures { Gives scaled_tree result (scaled_two place When None None (scaled_tree x) (scaled_tree c)) }
{
    truth_of(place, c.quantity)?;
    let quantity = x.quantity;
    let tree = two(alloc, Op2::When, x.tree, c.tree)?;
    Ok(Scaled { tree, quantity })
}

// A choice between two expressions, of which each is a literal, or isn't.
fn scale_if(
    alloc: Global,
    place: Place,
    literals: (Option<Decimal>, Option<Decimal>),
    parts: (Scaled, Scaled, Scaled),
) -> Result<Scaled, ScaleFault>
    ensures { Gives scaled_tree result
        (scaled_if place literals.0 literals.1 (scaled_tree parts.0) (scaled_tree parts.1) (scaled_tree parts.2)) }
{
    let (c, x, y) = parts;
    truth_of(place, c.quantity)?;
    let branches = align(alloc, place, literals, x, y)?;
    let quantity = branches.quantity;
    let tree = choose(alloc, c.tree, branches.left, branches.right)?;
    Ok(Scaled { tree, quantity })
}

// Two expressions over whole numbers that represent the same quantity.
#[derive(Drop)]
struct Aligned {
    left: Tree,
    right: Tree,
    quantity: Quantity,
}

// The number that a literal is at a scale.
fn literal_at(place: Place, decimal: Decimal, scale: Scale) -> Result<i64, ScaleFault>
    ensures { Gives (λ n. n) result (literal_at place decimal scale) }
{
    let product = product(decimal.number, scale);
    let Some(number) = exact_quotient(product, decimal.scale) else {
        return Err(ScaleFault::LiteralNotWhole(place));
    };
    match number_within(number) {
        Some(number) => Ok(number),
        None => Err(ScaleFault::LiteralTooLarge(place)),
    }
}

// The number in parts.
fn product(number: i64, scale: Scale) -> i128
    ensures value { result ≡ number *ℤ pos scale }
{
    i128::from(number) * i128::from(scale.parts())
}

// The quotient, if it is whole.
fn exact_quotient(product: i128, scale: Scale) -> Option<i128>
    ensures { result ≡ exact_quotient product (pos scale) }
{
    let parts = i128::from(scale.parts());
    if product % parts == 0 {
        Some(product / parts)
    } else {
        None
    }
}

// The number, if 64 bits hold it.
fn number_within(number: i128) -> Option<i64>
    ensures { result ≡ within_64_bits number }
{
    i64::try_from(number).ok()
}

// The expression at a scale that is so many times larger.
fn raise(alloc: Global, factor: u64, tree: Tree) -> Result<Tree, OutOfMemory>
    requires { factor < 2 ^ 63 }
    ensures { IfOk result (λ larger. tree_of larger ≡ raised factor (tree_of tree)) }
{
    if factor == 1 {
        return Ok(tree);
    }
    let factor = Box::new(alloc, Tree::Const(factor as i64))?;
    let tree = Box::new(alloc, tree)?;
    Ok(Tree::Two(Op2::Mul, factor, tree))
}

// The scale at which the numbers of two scales can both be written.
fn common_scale(a: Scale, b: Scale) -> Option<Scale>
    ensures { result ≡ common_scale a b }
{
    if b.parts() % a.parts() == 0 {
        Some(b)
    } else if a.parts() % b.parts() == 0 {
        Some(a)
    } else {
        None
    }
}

// The scale of a product.
fn product_scale(a: Scale, b: Scale) -> Option<Scale>
    ensures { result ≡ product_scale a b }
{
    Scale::new(a.parts().checked_mul(b.parts())?)
}

// What the dividend is multiplied by.
fn dividend_factor(a: Scale, b: Scale) -> u64
    ensures value { result ≡ dividend_factor a b }
    ensures small { result < 2 ^ 63 }
{
    if a.parts() % b.parts() == 0 {
        1
    } else {
        b.parts()
    }
}

// The scale of a quotient.
fn quotient_scale(a: Scale, b: Scale) -> Scale
    ensures { result ≡ quotient_scale a b }
{
    if a.parts() % b.parts() != 0 {
        return a;
    }
    let Some(scale) = Scale::new(a.parts() / b.parts()) else {
        unreachable!()
    };
    scale
}

// Two expressions, brought to one quantity; each is a literal, or isn't.
fn align(
    alloc: Global,
    place: Place,
    literals: (Option<Decimal>, Option<Decimal>),
    x: Scaled,
    y: Scaled,
) -> Result<Aligned, ScaleFault>
    ensures { Gives aligned_trees result (aligned place literals.0 literals.1 (scaled_tree x) (scaled_tree y)) }
{
    if is_truth(x.quantity) {
        return align_truths(place, x.tree, y);
    }
    let s = scale_of(place, x.quantity)?;
    let t = scale_of(place, y.quantity)?;
    align_numbers(alloc, place, literals, (x.tree, s), (y.tree, t))
}

// Truth values, and an expression that has to be truth values.
fn align_truths(place: Place, left: Tree, y: Scaled) -> Result<Aligned, ScaleFault>
    ensures { Gives aligned_trees result (aligned_by place None None (tree_of left) Truth (tree_of y.tree) y.quantity) }
{
    let quantity = truth_of(place, y.quantity)?;
    Ok(Aligned {
        left,
        right: y.tree,
        quantity,
    })
}

// Numbers at two scales, brought to one: a literal to the scale of the other, else the smaller to the larger.
fn align_numbers(
    alloc: Global,
    place: Place,
    literals: (Option<Decimal>, Option<Decimal>),
    x: (Tree, Scale),
    y: (Tree, Scale),
) -> Result<Aligned, ScaleFault>
    ensures { Gives aligned_trees result (aligned_numbers place literals.0 literals.1 (tree_of x.0) x.1 (tree_of y.0) y.1) }
{
    match literals {
        (Some(literal), None) => Ok(Aligned {
            left: Tree::Const(literal_at(place, literal, y.1)?),
            right: y.0,
            quantity: Quantity::Number(y.1),
        }),
        (None, Some(literal)) => Ok(Aligned {
            left: x.0,
            right: Tree::Const(literal_at(place, literal, x.1)?),
            quantity: Quantity::Number(x.1),
        }),
        _ => align_scales(alloc, place, x, y),
    }
}

// Numbers at two scales, the smaller brought to the larger.
fn align_scales(
    alloc: Global,
    place: Place,
    x: (Tree, Scale),
    y: (Tree, Scale),
) -> Result<Aligned, ScaleFault>
    ensures { Gives aligned_trees result (in_common place (tree_of x.0) x.1 (tree_of y.0) y.1) }
{
    let Some(common) = common_scale(x.1, y.1) else {
        return Err(ScaleFault::ScalesDiffer(place));
    };
    let left = raise(alloc, common.parts() / x.1.parts(), x.0)?;
    let right = raise(alloc, common.parts() / y.1.parts(), y.0)?;
    Ok(Aligned {
        left,
        right,
        quantity: Quantity::Number(common),
    })
}

// The scale of a quantity that has to be numbers.
fn scale_of(place: Place, quantity: Quantity) -> Result<Scale, ScaleFault>
    ensures { Gives (λ s. s) result (scale_of place quantity) }
{
    match quantity {
        Quantity::Number(scale) => Ok(scale),
        Quantity::Truth => Err(ScaleFault::TypeMismatch(place)),
    }
}

// Whether the quantity is truth values.
fn is_truth(quantity: Quantity) -> bool
    ensures { result ≡ is_truth quantity }
{
    match quantity {
        Quantity::Truth => true,
        Quantity::Number(_) => false,
    }
}

// The quantity, if it is numbers.
fn numbers_of(place: Place, quantity: Quantity) -> Result<Quantity, ScaleFault>
    ensures { Gives (λ q. q) result (numbers_of place quantity) }
{
    Ok(Quantity::Number(scale_of(place, quantity)?))
}

// Truth values, of a quantity that has to be truth values.
fn truth_of(place: Place, quantity: Quantity) -> Result<Quantity, ScaleFault>
    ensures { Gives (λ q. q) result (truth_of place quantity) }
{
    match quantity {
        Quantity::Truth => Ok(Quantity::Truth),
        Quantity::Number(_) => Err(ScaleFault::TypeMismatch(place)),
    }
}

// An operator on one quantity.
fn quantity_of_one(place: Place, op: Op1, quantity: Quantity) -> Result<Quantity, ScaleFault>
    ensures { Gives (λ q. q) result (quantity_of_one place op quantity) }
{
    match op {
        Op1::Neg => numbers_of(place, quantity),
        Op1::Not => truth_of(place, quantity),
        Op1::IsNull => Ok(Quantity::Truth),
    }
}

// A reducer on a quantity.
fn quantity_of_reducer(
    place: Place,
    reducer: Reducer,
    quantity: Quantity,
) -> Result<Quantity, ScaleFault>
    ensures { Gives (λ q. q) result (quantity_of_reducer place reducer quantity) }
{
    match reducer {
        Reducer::Sum | Reducer::Avg | Reducer::Min | Reducer::Max => numbers_of(place, quantity),
        Reducer::Count => Ok(Quantity::Number(Scale::one())),
        Reducer::First | Reducer::Last => Ok(quantity),
        Reducer::Any | Reducer::All => truth_of(place, quantity),
    }
}

// What a source represents.
fn quantity_at(place: Place, sources: &[Quantity], source: u32) -> Result<Quantity, ScaleFault>
    ensures { Gives (λ q. q) result (quantity_at place sources.now source) }
{
    match sources.get(source as usize) {
        Some(quantity) => Ok(*quantity),
        None => Err(ScaleFault::UnknownSource(place)),
    }
}

// The literal that an expression is, if it is one.
fn literal_of(tree: &DecimalTree) -> Option<Decimal>
    ensures { result ≡ literal_of (unit_tree tree.now) }
{
    match tree {
        DecimalTree::Literal(decimal) => Some(*decimal),
        _ => None,
    }
}

// A product: the scales are multiplied.
fn product_of(alloc: Global, place: Place, x: Scaled, y: Scaled) -> Result<Scaled, ScaleFault>
    ensures { Gives scaled_tree result (product_of place (scaled_tree x) (scaled_tree y)) }
{
    let s = scale_of(place, x.quantity)?;
    let t = scale_of(place, y.quantity)?;
    let Some(scale) = product_scale(s, t) else {
        return Err(ScaleFault::ScaleTooLarge(place));
    };
    let tree = two(alloc, Op2::Mul, x.tree, y.tree)?;
    Ok(Scaled {
        tree,
        quantity: Quantity::Number(scale),
    })
}

// A quotient: the scales are divided, after the dividend was multiplied if the quotient of the scales isn't whole.
fn quotient_of(alloc: Global, place: Place, x: Scaled, y: Scaled) -> Result<Scaled, ScaleFault>
    ensures { Gives scaled_tree result (quotient_of place (scaled_tree x) (scaled_tree y)) }
{
    let s = scale_of(place, x.quantity)?;
    let t = scale_of(place, y.quantity)?;
    let dividend = raise(alloc, dividend_factor(s, t), x.tree)?;
    let tree = two(alloc, Op2::Div, dividend, y.tree)?;
    Ok(Scaled {
        tree,
        quantity: Quantity::Number(quotient_scale(s, t)),
    })
}

// Two truth values.
fn join_truths(
    alloc: Global,
    place: Place,
    op: Op2,
    x: Scaled,
    y: Scaled,
) -> Result<Scaled, ScaleFault>
    ensures { Gives scaled_tree result (joined_truths place op (scaled_tree x) (scaled_tree y)) }
{
    truth_of(place, x.quantity)?;
    let quantity = truth_of(place, y.quantity)?;
    let tree = two(alloc, op, x.tree, y.tree)?;
    Ok(Scaled { tree, quantity })
}

// An operator on aligned numbers, which gives numbers at their scale.
fn join_numbers(alloc: Global, place: Place, op: Op2, a: Aligned) -> Result<Scaled, ScaleFault>
    ensures { Gives scaled_tree result (joined_numbers place op (aligned_trees a)) }
{
    let quantity = numbers_of(place, a.quantity)?;
    let tree = two(alloc, op, a.left, a.right)?;
    Ok(Scaled { tree, quantity })
}

// A comparison of aligned numbers.
fn compare_numbers(alloc: Global, place: Place, op: Op2, a: Aligned) -> Result<Scaled, ScaleFault>
    ensures { Gives scaled_tree result (compared_numbers place op (aligned_trees a)) }
{
    scale_of(place, a.quantity)?;
    let tree = two(alloc, op, a.left, a.right)?;
    Ok(Scaled {
        tree,
        quantity: Quantity::Truth,
    })
}

// The operator on the two expressions.
fn two(alloc: Global, op: Op2, a: Tree, b: Tree) -> Result<Tree, OutOfMemory>
    ensures { IfOk result (λ tree. tree_of tree ≡ Two op (tree_of a) (tree_of b)) }
{
    let a = Box::new(alloc, a)?;
    let b = Box::new(alloc, b)?;
    Ok(Tree::Two(op, a, b))
}

// The operator on the expression.
fn one(alloc: Global, op: Op1, a: Tree) -> Result<Tree, OutOfMemory>
    ensures { IfOk result (λ tree. tree_of tree ≡ One op (tree_of a)) }
{
    let a = Box::new(alloc, a)?;
    Ok(Tree::One(op, a))
}

// `if` the first `then` the second `else` the third.
fn choose(alloc: Global, c: Tree, a: Tree, b: Tree) -> Result<Tree, OutOfMemory>
    ensures { IfOk result (λ tree. tree_of tree ≡ If (tree_of c) (tree_of a) (tree_of b)) }
{
    let c = Box::new(alloc, c)?;
    let a = Box::new(alloc, a)?;
    let b = Box::new(alloc, b)?;
    Ok(Tree::If(c, a, b))
}
