// Expressions, read from left to right without going back. Each function returns what is at the beginning of the tokens and what follows
// it, or `None` if that can't be read.
ghost use Rattle.std.specs.Prelude.{◌<◌, IfOk};
ghost use Rattle.tilt_syntax.specs.Descent.{Reading, plan_of, atom_plan, choice_plan, chain_plan, enclosed_plan};
ghost use Rattle.tilt_syntax.specs.Descent.{give, going_plan, minus_plan, negation_plan, word_plan};
ghost use Rattle.tilt_syntax.specs.Levels.{level_number};
ghost use Rattle.tilt_syntax.specs.Query.{kinds, AreSound};
ghost use Rattle.tilt_syntax.specs.Rest.{FindsExpr};
ghost use Rattle.tilt_syntax.specs.Tree.{expr_tree};

use crate::atom::{reading, reduction};
use crate::expr::Expr;
use crate::front::{after_key, after_mark};
use crate::level::{Level, front_operator};
use crate::tree::{choose, one, two};
use std::alloc::{AllocError as OutOfMemory, Global};
use tilt_base::{Op1, Op2};
use tilt_lexer::{Key, Mark, Tok, Token};

// An expression, and the tokens after it.
type Found<'a> = Result<Option<(Expr, &'a [Token])>, OutOfMemory>;

// The expression of that level at the beginning.
#[cycle(expressions)]
pub(crate) fn expression(alloc: Global, level: Level, tokens: &[Token]) -> Found<'_>
    requires { AreSound (kinds tokens.now) }
    ensures { IfOk result (λ found. FindsExpr (plan_of (Reading level (kinds tokens.now))) (kinds tokens.now) found) }
{
    match level {
        Level::Choice => choice(alloc, tokens),
        Level::Negation => negation(alloc, tokens),
        Level::Minus => minus(alloc, tokens),
        Level::Atom => atom(alloc, tokens),
        Level::When | Level::Or | Level::And | Level::Comparison | Level::Sum | Level::Product =>
            chain(alloc, level, tokens),
    }
}

// `if c then a else b`, or a tighter expression.
#[cycle(expressions)]
fn choice(alloc: Global, tokens: &[Token]) -> Found<'_>
    requires { AreSound (kinds tokens.now) }
    ensures { IfOk result (λ found. FindsExpr (choice_plan (kinds tokens.now)) (kinds tokens.now) found) }
{
    let Some(first) = after_key(tokens, Key::If) else {
        return expression(alloc, Level::When, tokens);
    };
    let Some((c, behind_c)) = expression(alloc, Level::Choice, first)? else {
        return Ok(None);
    };
    let Some(second) = after_key(behind_c, Key::Then) else {
        return Ok(None);
    };
    let Some((a, behind_a)) = expression(alloc, Level::Choice, second)? else {
        return Ok(None);
    };
    let Some(third) = after_key(behind_a, Key::Else) else {
        return Ok(None);
    };
    let Some((b, rest)) = expression(alloc, Level::Choice, third)? else {
        return Ok(None);
    };
    let chosen = choose(alloc, c, a, b)?;
    Ok(Some((chosen, rest)))
}

// Operands of a level with operators between them.
#[cycle(expressions)]
fn chain(alloc: Global, level: Level, tokens: &[Token]) -> Found<'_>
    requires sound { AreSound (kinds tokens.now) }
    requires loose { level_number level < 9 }
    ensures { IfOk result (λ found. FindsExpr (chain_plan level (kinds tokens.now)) (kinds tokens.now) found) }
{
    let Some((first, behind)) = expression(alloc, level.tighter(), tokens)? else {
        return Ok(None);
    };
    going_on(alloc, level, first, behind)
}

// What a left operand goes on to with the operators of its level. A comparison is gone on with once.
#[cycle(expressions)]
fn going_on(alloc: Global, level: Level, left: Expr, tokens: &[Token]) -> Found<'_>
    requires { AreSound (kinds tokens.now) }
    ensures { IfOk result (λ found. FindsExpr (going_plan level (expr_tree left) (kinds tokens.now)) (kinds tokens.now) found) }
{
    let Some((op, behind)) = front_operator(level, tokens) else {
        return Ok(Some((left, tokens)));
    };
    let Some((right, rest)) = expression(alloc, level.tighter(), behind)? else {
        return Ok(None);
    };
    let both = two(alloc, op, left, right)?;
    if level == Level::Comparison {
        Ok(Some((both, rest)))
    } else {
        going_on(alloc, level, both, rest)
    }
}

// `not a`, or a tighter expression.
#[cycle(expressions)]
fn negation(alloc: Global, tokens: &[Token]) -> Found<'_>
    requires { AreSound (kinds tokens.now) }
    ensures { IfOk result (λ found. FindsExpr (negation_plan (kinds tokens.now)) (kinds tokens.now) found) }
{
    let Some(behind) = after_key(tokens, Key::Not) else {
        return expression(alloc, Level::Comparison, tokens);
    };
    let Some((a, rest)) = expression(alloc, Level::Negation, behind)? else {
        return Ok(None);
    };
    let negated = one(alloc, Op1::Not, a)?;
    Ok(Some((negated, rest)))
}

// `-a`, or an atom.
#[cycle(expressions)]
fn minus(alloc: Global, tokens: &[Token]) -> Found<'_>
    requires { AreSound (kinds tokens.now) }
    ensures { IfOk result (λ found. FindsExpr (minus_plan (kinds tokens.now)) (kinds tokens.now) found) }
{
    let Some(behind) = after_mark(tokens, Mark::Minus) else {
        return expression(alloc, Level::Atom, tokens);
    };
    let Some((a, rest)) = expression(alloc, Level::Minus, behind)? else {
        return Ok(None);
    };
    let negative = one(alloc, Op1::Neg, a)?;
    Ok(Some((negative, rest)))
}

// What needs no parentheses anywhere.
#[cycle(expressions)]
fn atom(alloc: Global, tokens: &[Token]) -> Found<'_>
    requires { AreSound (kinds tokens.now) }
    ensures { IfOk result (λ found. FindsExpr (atom_plan (kinds tokens.now)) (kinds tokens.now) found) }
{
    let [first, rest @ ..] = tokens else {
        return Ok(None);
    };
    match &first.kind {
        Tok::Number(number) => Ok(Some((Expr::Num(*number), rest))),
        Tok::Word(name) => reading(name, rest),
        Tok::Key(key) => word(alloc, *key, rest),
        Tok::Mark(_) => enclosed(alloc, tokens),
    }
}

// What follows a reserved word with which an atom begins.
#[cycle(expressions)]
fn word(alloc: Global, key: Key, tokens: &[Token]) -> Found<'_>
    requires { AreSound (kinds tokens.now) }
    ensures { IfOk result (λ found. FindsExpr (word_plan key (kinds tokens.now)) (kinds tokens.now) found) }
{
    match key {
        Key::TrueWord => Ok(Some((Expr::Truth(true), tokens))),
        Key::FalseWord => Ok(Some((Expr::Truth(false), tokens))),
        Key::IsNull => is_null(alloc, tokens),
        Key::IfNull => if_null(alloc, tokens),
        Key::Reducer(reducer) => reduction(reducer, tokens),
        _ => Ok(None),
    }
}

// An expression in parentheses.
#[cycle(expressions)]
fn enclosed(alloc: Global, tokens: &[Token]) -> Found<'_>
    requires { AreSound (kinds tokens.now) }
    ensures { IfOk result (λ found. FindsExpr (enclosed_plan (kinds tokens.now) give) (kinds tokens.now) found) }
{
    let Some(opened) = after_mark(tokens, Mark::OpenParen) else {
        return Ok(None);
    };
    let Some((inside, behind)) = expression(alloc, Level::Choice, opened)? else {
        return Ok(None);
    };
    let Some(rest) = after_mark(behind, Mark::CloseParen) else {
        return Ok(None);
    };
    Ok(Some((inside, rest)))
}

// What follows `isnull`.
#[cycle(expressions)]
fn is_null(alloc: Global, tokens: &[Token]) -> Found<'_>
    requires { AreSound (kinds tokens.now) }
    ensures { IfOk result (λ found. FindsExpr (word_plan Key.IsNull (kinds tokens.now)) (kinds tokens.now) found) }
{
    let Some(opened) = after_mark(tokens, Mark::OpenParen) else {
        return Ok(None);
    };
    let Some((a, behind)) = expression(alloc, Level::Choice, opened)? else {
        return Ok(None);
    };
    let Some(rest) = after_mark(behind, Mark::CloseParen) else {
        return Ok(None);
    };
    let tested = one(alloc, Op1::IsNull, a)?;
    Ok(Some((tested, rest)))
}

// What follows `ifnull`.
#[cycle(expressions)]
fn if_null(alloc: Global, tokens: &[Token]) -> Found<'_>
    requires { AreSound (kinds tokens.now) }
    ensures { IfOk result (λ found. FindsExpr (word_plan Key.IfNull (kinds tokens.now)) (kinds tokens.now) found) }
{
    let Some(opened) = after_mark(tokens, Mark::OpenParen) else {
        return Ok(None);
    };
    let Some((a, behind_a)) = expression(alloc, Level::Choice, opened)? else {
        return Ok(None);
    };
    let Some(second) = after_mark(behind_a, Mark::Comma) else {
        return Ok(None);
    };
    let Some((b, behind_b)) = expression(alloc, Level::Choice, second)? else {
        return Ok(None);
    };
    let Some(rest) = after_mark(behind_b, Mark::CloseParen) else {
        return Ok(None);
    };
    let other = two(alloc, Op2::IfNull, a, b)?;
    Ok(Some((other, rest)))
}
