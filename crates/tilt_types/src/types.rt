// The types of expressions.
ghost use Rattle.std.specs.Prelude.{◌≡◌};
ghost use Rattle.tilt_syntax.specs.Tree.{expr_tree};
ghost use Rattle.tilt_types.specs.Types.{same_type, of_asked, type_of_one, type_of_two, type_of_if, type_of_reducer};
ghost use Rattle.tilt_types.specs.Types.{type_declared, type_of};

use crate::declared::Declared;
use crate::value_type::ValueType;
use ValueType::{Bool, Int};
use tilt_base::{Op1, Op2, Reducer};
use tilt_lexer::Name;
use tilt_syntax::Expr;

/// The type of the expression over the names that were declared, if it has one.
pub fn type_of(declared: &[Declared], expr: &Expr) -> Option<ValueType>
    ensures { result ≡ type_of declared.now (expr_tree expr.now) }
{
    match expr {
        Expr::Num(_) => Some(Int),
        Expr::Truth(_) => Some(Bool),
        Expr::Read { name, .. } => type_declared(declared, name),
        Expr::Reduce { reducer, name, .. } => {
            type_of_reducer(*reducer, type_declared(declared, name)?)
        }
        Expr::One(op, a) => type_of_one(*op, type_of(declared, a)?),
        Expr::Two(op, a, b) => type_of_two(*op, type_of(declared, a)?, type_of(declared, b)?),
        Expr::If(c, a, b) => type_of_if(
            type_of(declared, c)?,
            type_of(declared, a)?,
            type_of(declared, b)?,
        ),
    }
}

// The type of the name, where it was declared.
pub(crate) fn type_declared(declared: &[Declared], name: &Name) -> Option<ValueType>
    ensures { result ≡ type_declared declared.now name.now }
{
    for one in declared {
        if one.name.bytes() == name.bytes() {
            return Some(one.value_type);
        }
    }
    None
}

// Whether the two types are one.
pub(crate) fn same_type(a: ValueType, b: ValueType) -> bool
    ensures { result ≡ same_type a b }
{
    a == b
}

// The type that is given where both operands have the type that is asked.
fn of_asked(asked: ValueType, given: ValueType, a: ValueType, b: ValueType) -> Option<ValueType>
    ensures { result ≡ of_asked asked given a b }
{
    (same_type(a, asked) && same_type(b, asked)).then_some(given)
}

// The type of an operator on one operand, by the operand's.
fn type_of_one(op: Op1, a: ValueType) -> Option<ValueType>
    ensures { result ≡ type_of_one op a }
{
    match op {
        Op1::Neg => same_type(a, Int).then_some(Int),
        Op1::Not => same_type(a, Bool).then_some(Bool),
        Op1::IsNull => Some(Bool),
    }
}

// The type of an operator on two operands, by theirs.
fn type_of_two(op: Op2, a: ValueType, b: ValueType) -> Option<ValueType>
    ensures { result ≡ type_of_two op a b }
{
    match op {
        Op2::Add | Op2::Sub | Op2::Mul | Op2::Div | Op2::Rem => of_asked(Int, Int, a, b),
        Op2::Eq | Op2::Ne => same_type(a, b).then_some(Bool),
        Op2::Lt | Op2::Le | Op2::Gt | Op2::Ge => of_asked(Int, Bool, a, b),
        Op2::And | Op2::Or => of_asked(Bool, Bool, a, b),
        Op2::When => same_type(b, Bool).then_some(a),
        Op2::IfNull => same_type(a, b).then_some(a),
    }
}

// The type of `if c then a else b`, by those of its parts.
fn type_of_if(c: ValueType, a: ValueType, b: ValueType) -> Option<ValueType>
    ensures { result ≡ type_of_if c a b }
{
    (same_type(c, Bool) && same_type(a, b)).then_some(a)
}

// The type of a reducer, by that of the stream under its window.
fn type_of_reducer(reducer: Reducer, a: ValueType) -> Option<ValueType>
    ensures { result ≡ type_of_reducer reducer a }
{
    match reducer {
        Reducer::Sum | Reducer::Avg | Reducer::Min | Reducer::Max => {
            same_type(a, Int).then_some(Int)
        }
        Reducer::Count => Some(Int),
        Reducer::First | Reducer::Last => Some(a),
        Reducer::Any | Reducer::All => same_type(a, Bool).then_some(Bool),
    }
}
