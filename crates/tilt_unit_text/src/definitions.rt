// Definitions in units.
ghost use Rattle.std.specs.Prelude.{◌≡◌, ◌≤◌, [], ◌++◌, ◌∷◌, List, All, IfOk, OnOk, length, map};
ghost use Rattle.tilt_syntax.specs.Tree.{StatementTree, expr_tree, statement_tree};
ghost use Rattle.tilt_units.specs.Translation.{unit_definition};
ghost use Rattle.tilt_unit_text.specs.Numbers.{IsWritten};
ghost use Rattle.tilt_unit_text.specs.Units.{one_definition, unit_definition_of, unit_definitions};

use crate::expression::in_units;
use crate::written::Written;
use std::alloc::{AllocError as OutOfMemory, Global};
use tilt_core::Def;
use tilt_lexer::Name;
use tilt_syntax::{Expr, Statement};
use tilt_units::DecimalDef;

// The definitions in units, of statements in which each number is its count, and of the definitions of their core.
pub(crate) fn unit_definitions(
    alloc: Global,
    names: &[Name],
    numbers: &[Written],
    statements: &[Statement],
    defs: &[Def],
) -> Result<Vec<DecimalDef>, OutOfMemory>
    requires few { length names.now ≤ 256 }
    requires written { All IsWritten numbers.now }
    ensures { IfOk result (λ units. map unit_definition units.items
        ≡ unit_definitions names.now numbers.now (map statement_tree statements.now) defs.now) }
{
    let mut units = Vec::new(alloc);
    let mut rest = defs;
    for statement in statements {
        rest = push_statement(alloc, &mut units, names, numbers, statement, rest)?;
    }
    Ok(units)
}

// Adds the definition of a statement, if it is one, with the first of the definitions of the core. What is left are the others.
fn push_statement<'a>(
    alloc: Global,
    units: &mut Vec<DecimalDef>,
    names: &[Name],
    numbers: &[Written],
    statement: &Statement,
    defs: &'a [Def],
) -> Result<&'a [Def], OutOfMemory>
    requires few { length names.now ≤ 256 }
    requires written { All IsWritten numbers.now }
    ensures { IfOk result (λ rest. (more : List StatementTree)
        → map unit_definition units.new.items ++ unit_definitions names.now numbers.now more rest.now
        ≡ map unit_definition units.old.items ++ unit_definitions names.now numbers.now (statement_tree statement.now ∷ more) defs.now) }
{
    match statement {
        Statement::Input { .. } => Ok(defs),
        Statement::Let { expr, .. } | Statement::Emit { expr, .. } => {
            push_expression(alloc, units, names, numbers, expr, defs)
        }
    }
}

// Adds a definition with this expression, if there is a definition of the core for it. What is left are the others.
fn push_expression<'a>(
    alloc: Global,
    units: &mut Vec<DecimalDef>,
    names: &[Name],
    numbers: &[Written],
    expr: &Expr,
    defs: &'a [Def],
) -> Result<&'a [Def], OutOfMemory>
    requires few { length names.now ≤ 256 }
    requires written { All IsWritten numbers.now }
    ensures { IfOk result (λ rest. (more : List StatementTree)
        → map unit_definition units.new.items ++ unit_definitions names.now numbers.now more rest.now
        ≡ map unit_definition units.old.items ++ one_definition names.now numbers.now (expr_tree expr.now) more defs.now) }
{
    match defs.split_first() {
        None => Ok(defs),
        Some((def, rest)) => {
            push_definition(alloc, units, names, numbers, expr, def)?;
            Ok(rest)
        }
    }
}

// Adds a definition with this expression, on the grid and the span of a definition of the core.
fn push_definition(
    alloc: Global,
    units: &mut Vec<DecimalDef>,
    names: &[Name],
    numbers: &[Written],
    expr: &Expr,
    def: &Def,
) -> Result<(), OutOfMemory>
    requires few { length names.now ≤ 256 }
    requires written { All IsWritten numbers.now }
    ensures { OnOk result (map unit_definition units.new.items
        ≡ map unit_definition units.old.items ++ unit_definition_of names.now numbers.now (expr_tree expr.now) def.now ∷ []) }
{
    let body = in_units(alloc, names, numbers, expr)?;
    units.push(DecimalDef {
        body,
        over: def.over,
        grid: def.grid,
    })?;
    Ok(())
}
