// One step of a pipeline, read.
ghost use Rattle.std.specs.Prelude.{◌≤◌, ◌<◌, List, ℕ, codes, length, IfOk, MatchOption};
ghost use Rattle.tilt_base.specs.declared.span.Span.{Span};
ghost use Rattle.tilt_operators.specs.Flow.{StepTree, step_tree};
ghost use Rattle.tilt_operators.specs.Parts.{FindsStep};
ghost use Rattle.tilt_operators.specs.Steps.{IsFirst, IsLast, IsStep};
ghost use Rattle.tilt_syntax.specs.Query.{kinds, AreSound};

use crate::operands::{Operands, read_expr};
use crate::part::{
    before_end, front_reducer, inside_span, is_kept_back, is_of_numbers, whole_bound,
};
use crate::step::Step;
use std::alloc::{AllocError as OutOfMemory, Global};
use tilt_base::Span;
use tilt_lexer::{Key, Name, Token};
use tilt_syntax::{after_key, first_name, first_number, is_end};
use tilt_types::is_stretch;

// The name of the input that the first step reads, if the tokens are such a step.
pub(crate) fn read_first(tokens: &[Token]) -> Result<Option<Name>, OutOfMemory>
    requires { AreSound (kinds tokens.now) }
    ensures { IfOk result (λ found. MatchOption found
        ((name : List ℕ) → ¬ (IsFirst (kinds tokens.now) name))
        (λ name. IsFirst (kinds tokens.now) name)) }
{
    let Some(named) = after_key(tokens, Key::From) else {
        return Ok(None);
    };
    let Some((name, end)) = first_name(named) else {
        return Ok(None);
    };
    if !is_end(end) {
        return Ok(None);
    }
    if is_kept_back(name) {
        return Ok(None);
    }
    let name = name.copy()?;
    Ok(Some(name))
}

// The domain that the last step gives, if the tokens are such a step.
pub(crate) fn read_last(tokens: &[Token]) -> Option<Span>
    requires { AreSound (kinds tokens.now) }
    ensures { MatchOption result
        ((domain : Span) → ¬ (IsLast (kinds tokens.now) domain))
        (λ domain. IsLast (kinds tokens.now) domain) }
{
    let over = after_key(tokens, Key::Emit)?;
    let bounds = after_key(over, Key::Over)?;
    let domain = inside_span(bounds)?;
    if is_stretch(domain) {
        Some(domain)
    } else {
        None
    }
}

// The step between the first and the last that the tokens are.
pub(crate) fn read_step(alloc: Global, tokens: &[Token]) -> Result<Option<Step>, OutOfMemory>
    requires sound { AreSound (kinds tokens.now) }
    requires few { length (kinds tokens.now) ≤ 256 }
    ensures { IfOk result (λ found. MatchOption found
        ((s : StepTree) → ¬ (IsStep (kinds tokens.now) s))
        (λ s. IsStep (kinds tokens.now) (step_tree s))) }
{
    let Some((word, behind)) = first_name(tokens) else {
        return Ok(None);
    };
    let Some(inside) = before_end(behind) else {
        return Ok(None);
    };
    read_inside(alloc, word, inside)
}

// The step of this word, with these tokens after it.
fn read_inside(alloc: Global, word: &Name, inside: &[Token]) -> Result<Option<Step>, OutOfMemory>
    requires sound { AreSound (kinds inside.now) }
    requires few { length (kinds inside.now) ≤ 256 }
    ensures { IfOk result (λ found. FindsStep word.now (kinds inside.now) found) }
{
    let word = word.bytes();
    if word == b"select".as_slice() {
        read_select(alloc, inside)
    } else if word == b"where".as_slice() {
        read_where(alloc, inside)
    } else if word == b"shift".as_slice() {
        Ok(read_shift(inside))
    } else if word == b"window".as_slice() {
        Ok(read_window(inside))
    } else if word == b"join".as_slice() {
        read_join(alloc, inside)
    } else {
        Ok(None)
    }
}

// What follows `select`.
fn read_select(alloc: Global, inside: &[Token]) -> Result<Option<Step>, OutOfMemory>
    requires sound { AreSound (kinds inside.now) }
    requires few { length (kinds inside.now) ≤ 256 }
    ensures { IfOk result (λ found. FindsStep (codes "select") (kinds inside.now) found) }
{
    let Some(expr) = read_expr(alloc, Operands::Value, inside)? else {
        return Ok(None);
    };
    Ok(Some(Step::Select(expr)))
}

// What follows `where`.
fn read_where(alloc: Global, inside: &[Token]) -> Result<Option<Step>, OutOfMemory>
    requires sound { AreSound (kinds inside.now) }
    requires few { length (kinds inside.now) ≤ 256 }
    ensures { IfOk result (λ found. FindsStep (codes "where") (kinds inside.now) found) }
{
    let Some(expr) = read_expr(alloc, Operands::Value, inside)? else {
        return Ok(None);
    };
    Ok(Some(Step::Keep(expr)))
}

// What follows `shift`.
fn read_shift(inside: &[Token]) -> Option<Step>
    requires { AreSound (kinds inside.now) }
    ensures { FindsStep (codes "shift") (kinds inside.now) result }
{
    let by = whole_bound(inside)?;
    Some(Step::Shift(by))
}

// What follows `window`.
fn read_window(inside: &[Token]) -> Option<Step>
    requires { AreSound (kinds inside.now) }
    ensures { FindsStep (codes "window") (kinds inside.now) result }
{
    let (reducer, behind) = front_reducer(inside)?;
    let (width, end) = first_number(behind)?;
    if end.is_empty() && width >= 1 && is_of_numbers(reducer) {
        Some(Step::Window { reducer, width })
    } else {
        None
    }
}

// What follows `join`.
fn read_join(alloc: Global, inside: &[Token]) -> Result<Option<Step>, OutOfMemory>
    requires sound { AreSound (kinds inside.now) }
    requires few { length (kinds inside.now) ≤ 256 }
    ensures { IfOk result (λ found. FindsStep (codes "join") (kinds inside.now) found) }
{
    let Some((name, behind)) = first_name(inside) else {
        return Ok(None);
    };
    if is_kept_back(name) {
        return Ok(None);
    }
    let Some(expr) = read_expr(alloc, Operands::Both, behind)? else {
        return Ok(None);
    };
    let name = name.copy()?;
    Ok(Some(Step::Join { name, expr }))
}
