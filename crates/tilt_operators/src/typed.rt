// The types of the expressions of steps.
ghost use Rattle.std.specs.Prelude.{◌≡◌, ◌≤◌, ◌++◌, Some, length, map, IfOk, OnOk};
ghost use Rattle.tilt_lexer.specs.Word.{IsWord};
ghost use Rattle.tilt_operators.specs.Flow.{step_tree};
ghost use Rattle.tilt_operators.specs.Steps.{first_untyped, is_number, is_truth, is_typed, operand_types};
ghost use Rattle.tilt_syntax.specs.Tree.{expr_tree};
ghost use Rattle.tilt_types.specs.WellFormed.{declared_as};
ghost use Rattle.tilt_types.specs.declared.value_type.ValueType.{ValueType};

use crate::step::Step;
use std::alloc::{AllocError as OutOfMemory, Global};
use tilt_lexer::Name;
use tilt_syntax::Expr;
use tilt_types::{Declared, ValueType, type_of};

// The number of the first step whose expression hasn't the type that the step asks for. The first of these steps has the number 2.
pub(crate) fn first_untyped(alloc: Global, steps: &[Step]) -> Result<Option<u32>, OutOfMemory>
    requires { length steps.now ≤ 100 }
    ensures { IfOk result (λ found. found ≡ first_untyped 2 (map step_tree steps.now)) }
{
    let operands = operand_types(alloc)?;
    let mut number = 1;
    for step in steps {
        number += 1;
        if !is_typed(&operands, step) {
            return Ok(Some(number));
        }
    }
    Ok(None)
}

// The types of `v` and `w`, which are numbers.
fn operand_types(alloc: Global) -> Result<Vec<Declared>, OutOfMemory>
    ensures { IfOk result (λ types. types.items ≡ operand_types) }
{
    let mut types = Vec::new(alloc);
    push_number(alloc, &mut types, b"v")?;
    push_number(alloc, &mut types, b"w")?;
    Ok(types)
}

// Adds a number of this name.
fn push_number(alloc: Global, types: &mut Vec<Declared>, word: &[u8]) -> Result<(), OutOfMemory>
    requires { IsWord word.now }
    ensures { OnOk result (types.new.items ≡ types.old.items ++ declared_as word.now (Some ValueType.Int)) }
{
    let Some(name) = Name::read(alloc, word)? else {
        unreachable!()
    };
    types.push(Declared {
        name,
        value_type: ValueType::Int,
    })?;
    Ok(())
}

// Whether the expression of the step, if it has one, has the type that the step asks for.
fn is_typed(operands: &[Declared], step: &Step) -> bool
    requires { operands.now ≡ operand_types }
    ensures { result ≡ is_typed (step_tree step.now) }
{
    match step {
        Step::Select(expr) => is_number(operands, expr),
        Step::Keep(expr) => is_truth(operands, expr),
        Step::Shift(_) => true,
        Step::Window { .. } => true,
        Step::Join { expr, .. } => is_number(operands, expr),
    }
}

// Whether the expression has the type of numbers.
fn is_number(operands: &[Declared], expr: &Expr) -> bool
    requires { operands.now ≡ operand_types }
    ensures { result ≡ is_number (expr_tree expr.now) }
{
    matches!(type_of(operands, expr), Some(ValueType::Int))
}

// Whether the expression has the type of truth values.
fn is_truth(operands: &[Declared], expr: &Expr) -> bool
    requires { operands.now ≡ operand_types }
    ensures { result ≡ is_truth (expr_tree expr.now) }
{
    matches!(type_of(operands, expr), Some(ValueType::Bool))
}
