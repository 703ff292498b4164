// Expressions in units.
ghost use Rattle.std.specs.Prelude.{◌≡◌, ◌≤◌, All, IfOk, length};
ghost use Rattle.tilt_syntax.specs.Tree.{expr_tree};
ghost use Rattle.tilt_types.specs.Checked.{place_of};
ghost use Rattle.tilt_units.specs.DecimalTree.{unit_tree};
ghost use Rattle.tilt_unit_text.specs.Numbers.{IsWritten};
ghost use Rattle.tilt_unit_text.specs.Units.{in_units, literal_at};

use crate::decimal::smallest;
use crate::places::{decimals_at, digits_at};
use crate::written::Written;
use std::alloc::{AllocError as OutOfMemory, Global};
use tilt_lexer::Name;
use tilt_syntax::Expr;
use tilt_units::{Decimal, DecimalTree};

// The expression, in which each number is its count, in units.
#[cycle(in_units)]
pub(crate) fn in_units(
    alloc: Global,
    names: &[Name],
    numbers: &[Written],
    expr: &Expr,
) -> Result<DecimalTree, OutOfMemory>
    requires few { length names.now ≤ 256 }
    requires written { All IsWritten numbers.now }
    ensures { IfOk result (λ tree. unit_tree tree ≡ in_units names.now numbers.now (expr_tree expr.now)) }
{
    Ok(match expr {
        Expr::Num(place) => DecimalTree::Literal(literal_at(numbers, *place)),
        Expr::Truth(holds) => DecimalTree::Truth(*holds),
        Expr::Read { name, offset } => DecimalTree::Read {
            source: place_of(names, name) as u32,
            offset: digits_at(numbers, *offset),
        },
        Expr::Reduce {
            reducer,
            name,
            from,
            to,
        } => DecimalTree::Reduce {
            reducer: *reducer,
            source: place_of(names, name) as u32,
            from: digits_at(numbers, *from),
            to: digits_at(numbers, *to),
        },
        Expr::One(op, a) => DecimalTree::One(*op, boxed(alloc, names, numbers, a)?),
        Expr::Two(op, a, b) => {
            let a = boxed(alloc, names, numbers, a)?;
            DecimalTree::Two(*op, a, boxed(alloc, names, numbers, b)?)
        }
        Expr::If(c, a, b) => {
            let c = boxed(alloc, names, numbers, c)?;
            let a = boxed(alloc, names, numbers, a)?;
            DecimalTree::If(c, a, boxed(alloc, names, numbers, b)?)
        }
    })
}

// The same, in a box.
#[cycle(in_units)]
fn boxed(
    alloc: Global,
    names: &[Name],
    numbers: &[Written],
    expr: &Expr,
) -> Result<Box<DecimalTree>, OutOfMemory>
    requires few { length names.now ≤ 256 }
    requires written { All IsWritten numbers.now }
    ensures { IfOk result (λ tree. unit_tree tree.value ≡ in_units names.now numbers.now (expr_tree expr.now)) }
{
    Ok(Box::new(alloc, in_units(alloc, names, numbers, expr)?)?)
}

// The literal with this count.
fn literal_at(numbers: &[Written], place: i64) -> Decimal
    requires { All IsWritten numbers.now }
    ensures { result ≡ literal_at numbers.now place }
{
    smallest(
        digits_at(numbers, place),
        decimals_at(numbers, place) as u32,
    )
}

// The place of the name among names; their number if it is none of them.
fn place_of(names: &[Name], name: &Name) -> usize
    ensures place { result ≡ place_of names.now name.now }
    ensures within { result ≤ length names.now }
{
    for (place, other) in names.iter().enumerate() {
        if other.bytes() == name.bytes() {
            return place;
        }
    }
    names.len()
}
