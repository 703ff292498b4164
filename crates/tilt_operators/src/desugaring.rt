// The query of a pipeline.
ghost use Rattle.std.specs.Prelude.{◌≡◌, ◌++◌, [], ◌∷◌, None, codes, length, map, IfOk, OnOk};
ghost use Rattle.std.specs.Fmt.{decimal};
ghost use Rattle.std.specs.List.{AllByRecursion};
ghost use Rattle.tilt_operators.specs.Desugared.{IsNegatable, query_of, reading, source_name, step_definitions, step_expr};
ghost use Rattle.tilt_operators.specs.Flow.{step_tree};
ghost use Rattle.tilt_syntax.specs.Tree.{Emit, Input, Let, statement_tree};

use crate::flow::Flow;
use crate::inputs::flow_inputs;
use crate::renamed::step_expr;
use crate::step::Step;
use std::alloc::{AllocError as OutOfMemory, Global};
use tilt_base::Span;
use tilt_lexer::Name;
use tilt_syntax::{Expr, Query, Statement};
use tilt_text::{put, put_number};

/// The query of the pipeline: its inputs in the order of their first mention, a definition for each step, and what the last one
/// gives on the domain. By the clauses of `query_keeps_meaning` some text reads as it, `check` accepts it, and it gives what the
/// pipeline gives.
pub fn desugar(alloc: Global, flow: &Flow) -> Result<Query, OutOfMemory>
    ensures { IfOk result (λ query. query ≡ query_of flow.now) }
{
    let names = flow_inputs(alloc, flow)?;
    let mut statements = Vec::new(alloc);
    push_inputs(&mut statements, &names)?;
    let last = push_definitions(alloc, &mut statements, flow.first(), flow.steps())?;
    push_emit(&mut statements, last, flow.domain())?;
    Ok(Query::new(statements))
}

// Adds the inputs of these names.
fn push_inputs(statements: &mut Vec<Statement>, names: &[Name]) -> Result<(), OutOfMemory>
    ensures { OnOk result (map statement_tree statements.new.items
        ≡ map statement_tree statements.old.items ++ map Input names.now) }
{
    for name in names {
        push_input(statements, name)?;
    }
    Ok(())
}

// Adds the input of this name.
fn push_input(statements: &mut Vec<Statement>, name: &Name) -> Result<(), OutOfMemory>
    ensures { OnOk result (map statement_tree statements.new.items
        ≡ map statement_tree statements.old.items ++ Input name.now ∷ []) }
{
    let name = name.copy()?;
    statements.push(Statement::Input { name })?;
    Ok(())
}

// Adds a definition for each step, each over the source before it, and gives the name of the last source.
fn push_definitions(
    alloc: Global,
    statements: &mut Vec<Statement>,
    first: &Name,
    steps: &[Step],
) -> Result<Name, OutOfMemory>
    requires { AllByRecursion IsNegatable (map step_tree steps.now) }
    ensures definitions { OnOk result (map statement_tree statements.new.items
        ≡ map statement_tree statements.old.items ++ step_definitions first.now 0 (map step_tree steps.now)) }
    ensures last { IfOk result (λ name. name ≡ source_name first.now (length steps.now)) }
{
    let mut before = first.copy()?;
    let mut number = 0;
    for step in steps {
        number += 1;
        let name = definition_name(alloc, number)?;
        push_definition(alloc, statements, &name, &before, step)?;
        before = name;
    }
    Ok(before)
}

// Adds the definition of a step over the source before it.
fn push_definition(
    alloc: Global,
    statements: &mut Vec<Statement>,
    name: &Name,
    before: &Name,
    step: &Step,
) -> Result<(), OutOfMemory>
    requires { IsNegatable (step_tree step.now) }
    ensures { OnOk result (map statement_tree statements.new.items
        ≡ map statement_tree statements.old.items ++ Let name.now (step_expr before.now (step_tree step.now)) None None ∷ []) }
{
    let expr = step_expr(alloc, before, step)?;
    let name = name.copy()?;
    statements.push(Statement::Let {
        name,
        expr,
        over: None,
        every: None,
    })?;
    Ok(())
}

// The name of the definition with that number.
fn definition_name(alloc: Global, number: u64) -> Result<Name, OutOfMemory>
    ensures { IfOk result (λ name. name ≡ codes "_" ++ decimal number) }
{
    let mut text = Vec::new(alloc);
    put(&mut text, b"_")?;
    put_number(&mut text, number)?;
    let Some(name) = Name::read(alloc, &text)? else {
        unreachable!()
    };
    Ok(name)
}

// Adds what is emitted: the source of this name, on the domain.
fn push_emit(statements: &mut Vec<Statement>, name: Name, over: Span) -> Result<(), OutOfMemory>
    ensures { OnOk result (map statement_tree statements.new.items
        ≡ map statement_tree statements.old.items ++ Emit (reading name) over None ∷ []) }
{
    let expr = Expr::Read { name, offset: 0 };
    statements.push(Statement::Emit {
        expr,
        over,
        every: None,
    })?;
    Ok(())
}
