// What needs no parentheses and has no expression in it: readings and windows.
ghost use Rattle.std.specs.Prelude.{IfOk, MatchOption};
ghost use Rattle.tilt_base.specs.Expression.{Leaf};
ghost use Rattle.tilt_base.specs.declared.reducer.Reducer.{Reducer};
ghost use Rattle.tilt_syntax.specs.Descent.{offset_plan, reading_plan, window_plan};
ghost use Rattle.tilt_syntax.specs.Query.{kinds, AreSound};
ghost use Rattle.tilt_syntax.specs.Rest.{Finds, FindsExpr, FindsPart};
ghost use Rattle.tilt_syntax.specs.Tree.{Reduce};

use crate::expr::Expr;
use crate::front::{after_key, after_mark, first_name, first_number};
use std::alloc::AllocError as OutOfMemory;
use tilt_base::Reducer;
use tilt_lexer::{Key, Mark, Name, Token};

// The offset at the beginning, and what follows it.
fn offset(tokens: &[Token]) -> Option<(i64, &[Token])>
    requires { AreSound (kinds tokens.now) }
    ensures { FindsPart (offset_plan (kinds tokens.now)) (kinds tokens.now) result }
{
    let rest = after_key(tokens, Key::Time)?;
    if let Some(rest) = after_mark(rest, Mark::Plus) {
        return first_number(rest);
    }
    if let Some(rest) = after_mark(rest, Mark::Minus) {
        let (number, rest) = first_number(rest)?;
        return Some((-number, rest));
    }
    Some((0, rest))
}

// What is read by a name, with its offset if one follows it.
pub(crate) fn reading<'a>(
    name: &Name,
    tokens: &'a [Token],
) -> Result<Option<(Expr, &'a [Token])>, OutOfMemory>
    requires { AreSound (kinds tokens.now) }
    ensures { IfOk result (λ found. FindsExpr (reading_plan name.now (kinds tokens.now)) (kinds tokens.now) found) }
{
    let Some(inside) = after_mark(tokens, Mark::OpenBracket) else {
        let name = name.copy()?;
        return Ok(Some((Expr::Read { name, offset: 0 }, tokens)));
    };
    let Some((offset, behind)) = offset(inside) else {
        return Ok(None);
    };
    let Some(rest) = after_mark(behind, Mark::CloseBracket) else {
        return Ok(None);
    };
    let name = name.copy()?;
    Ok(Some((Expr::Read { name, offset }, rest)))
}

// The window in parentheses after a reducer: its name and its two offsets, and what follows it.
fn window(tokens: &[Token]) -> Option<(&Name, i64, i64, &[Token])>
    requires { AreSound (kinds tokens.now) }
    ensures { MatchOption result
        ((r : Reducer) → Finds (window_plan r (kinds tokens.now)) (kinds tokens.now) None)
        (λ found. (r : Reducer) → Finds (window_plan r (kinds tokens.now)) (kinds tokens.now)
        (Some (record { tree = Leaf (Reduce r found.0.now found.1 found.2); rest = kinds found.3.now }))) }
{
    let opened = after_mark(tokens, Mark::OpenParen)?;
    let (name, named) = first_name(opened)?;
    let inside = after_mark(named, Mark::OpenBracket)?;
    let (from, left) = offset(inside)?;
    let between = after_mark(left, Mark::Colon)?;
    let (to, right) = offset(between)?;
    let closed = after_mark(right, Mark::CloseBracket)?;
    let rest = after_mark(closed, Mark::CloseParen)?;
    Some((name, from, to, rest))
}

// What the reducer is taken of, after it.
pub(crate) fn reduction(
    reducer: Reducer,
    tokens: &[Token],
) -> Result<Option<(Expr, &[Token])>, OutOfMemory>
    requires { AreSound (kinds tokens.now) }
    ensures { IfOk result (λ found. FindsExpr (window_plan reducer (kinds tokens.now)) (kinds tokens.now) found) }
{
    let Some((name, from, to, rest)) = window(tokens) else {
        return Ok(None);
    };
    let name = name.copy()?;
    Ok(Some((
        Expr::Reduce {
            reducer,
            name,
            from,
            to,
        },
        rest,
    )))
}
