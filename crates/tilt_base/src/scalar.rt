// The scalar operators on cells.
ghost use Rattle.std.specs.Prelude.{◌≡◌, Some};
ghost use Rattle.tilt_base.specs.Scalar.{apply1, apply2, choose, remainder, truth};

use crate::cell::Cell;
use crate::operator::{Op1, Op2};

/// What the operator gives on the cell. `Neg` and `Not` are null if it is null.
#[inline]
pub fn apply1(op: Op1, a: Cell) -> Cell
    ensures { result ≡ apply1 op a }
{
    match op {
        Op1::Neg => a?.checked_neg(),
        Op1::Not => truth(a? == 0),
        Op1::IsNull => truth(a.is_none()),
    }
}

/// What the operator gives on the cells. Each but `IfNull` is null if one of them is null.
#[inline(always)]
pub fn apply2(op: Op2, a: Cell, b: Cell) -> Cell
    ensures { result ≡ apply2 op a b }
{
    match op {
        Op2::IfNull => a.or(b),
        _ => on_numbers(op, a?, b?),
    }
}

/// The first cell if the condition is true, the second if it is 0, and null if it is null. The cell that
/// isn't chosen may be null.
#[inline]
pub fn choose(c: Cell, a: Cell, b: Cell) -> Cell
    ensures { result ≡ choose c a b }
{
    if c? != 0 { a } else { b }
}

/// 1 if a test holds, else 0.
#[inline]
pub(crate) fn truth(holds: bool) -> Cell
    ensures { result ≡ truth holds }
{
    Some(i64::from(holds))
}

// What the operator gives on two numbers.
#[inline(always)]
fn on_numbers(op: Op2, x: i64, y: i64) -> Cell
    ensures { result ≡ apply2 op (Some x) (Some y) }
{
    match op {
        Op2::Add => x.checked_add(y),
        Op2::Sub => x.checked_sub(y),
        Op2::Mul => x.checked_mul(y),
        Op2::Div => x.checked_div(y),
        Op2::Rem => remainder(x, y),
        Op2::Eq => truth(x == y),
        Op2::Ne => truth(x != y),
        Op2::Lt => truth(x < y),
        Op2::Le => truth(x <= y),
        Op2::Gt => truth(x > y),
        Op2::Ge => truth(x >= y),
        Op2::And => truth(x != 0 && y != 0),
        Op2::Or => truth(x != 0 || y != 0),
        Op2::When => (y != 0).then_some(x),
        Op2::IfNull => Some(x),
    }
}

// The remainder, with the sign of the dividend. `checked_rem` gives none at the least number and -1, where it is 0.
#[inline]
fn remainder(x: i64, y: i64) -> Cell
    ensures { result ≡ remainder x y }
{
    match y {
        0 => None,
        -1 => Some(0),
        _ => Some(x % y),
    }
}
