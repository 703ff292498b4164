// Whether a query is well formed.
ghost use Rattle.std.specs.Prelude.{◌≡◌, ◌≤◌, ◌++◌, ◌&&◌, [], Some, length, map, IfOk, OnOk};
ghost use Rattle.tilt_base.specs.Grid.{is_point};
ghost use Rattle.tilt_syntax.specs.Tree.{expr_tree, statement_tree};
ghost use Rattle.tilt_types.specs.Checked.{Gives, checked};
ghost use Rattle.tilt_types.specs.WellFormed.{declared_as, declared_by, domain_fault, expr_fault, fault_of, first_fault};
ghost use Rattle.tilt_types.specs.WellFormed.{has_windows, is_declared, is_domain, is_fitting, is_stretch, knows_names, name_fault};

use crate::builder::build;
use crate::declared::Declared;
use crate::fault::CheckFault;
use crate::grid::grid_of;
use crate::types::{same_type, type_declared, type_of};
use crate::value_type::ValueType;
use std::alloc::{AllocError as OutOfMemory, Global};
use tilt_base::{Grid, Span, T};
use tilt_core::Core;
use tilt_lexer::Name;
use tilt_syntax::{Every, Expr, Query, Statement};

/// The core of the query, if it is well formed; otherwise the fault of its first faulty statement, counted from 1. If the
/// statement has several faults, it is the first of these. `NameTaken`: it declares a name that was declared before.
/// `UnknownName`: a name in its expression isn't declared before it. `TypeMismatch`: its expression has no type, or it is
/// emitted and gives truth values. `BadWindow`: a window in its expression doesn't end after its start. `BadDomain`: a grid
/// can't have its period, its offset isn't below its period, its span bounds no stretch from `-T` to `T`, or a bound is no
/// grid point.
pub fn check(alloc: Global, query: &Query) -> Result<Core, CheckFault>
    ensures { Gives result (checked query.now) }
{
    let statements = query.statements();
    if let Some(fault) = first_fault(alloc, statements)? {
        return Err(fault);
    }
    Ok(build(alloc, query)?)
}

// The fault of the first faulty statement.
fn first_fault(alloc: Global, statements: &[Statement]) -> Result<Option<CheckFault>, OutOfMemory>
    requires { length statements.now ≤ 256 }
    ensures { IfOk result (λ fault. fault ≡ first_fault 1 [] (map statement_tree statements.now)) }
{
    let mut declared = Vec::new(alloc);
    let mut number = 0;
    for statement in statements {
        number += 1;
        let fault = fault_of(number, &declared, statement);
        if fault.is_some() {
            return Ok(fault);
        }
        declare(&mut declared, statement)?;
    }
    Ok(None)
}

// Adds what the statement declares.
fn declare(declared: &mut Vec<Declared>, statement: &Statement) -> Result<(), OutOfMemory>
    ensures { OnOk result (declared.new.items
        ≡ declared.old.items ++ declared_by declared.old.items (statement_tree statement.now)) }
{
    match statement {
        Statement::Input { name } => declare_as(declared, name, Some(ValueType::Int)),
        Statement::Let { name, expr, .. } => {
            let value_type = type_of(declared, expr);
            declare_as(declared, name, value_type)
        }
        Statement::Emit { .. } => Ok(()),
    }
}

// Adds the name with its type, where it has one.
fn declare_as(
    declared: &mut Vec<Declared>,
    name: &Name,
    value_type: Option<ValueType>,
) -> Result<(), OutOfMemory>
    ensures { OnOk result (declared.new.items ≡ declared.old.items ++ declared_as name.now value_type) }
{
    if let Some(value_type) = value_type {
        let name = name.copy()?;
        declared.push(Declared { name, value_type })?;
    }
    Ok(())
}

// The first fault of the statement with this number.
fn fault_of(number: u32, declared: &[Declared], statement: &Statement) -> Option<CheckFault>
    ensures { result ≡ fault_of number declared.now (statement_tree statement.now) }
{
    match statement {
        Statement::Input { name } => name_fault(number, declared, name),
        Statement::Let {
            name,
            expr,
            over,
            every,
        } => name_fault(number, declared, name)
            .or(expr_fault(number, declared, false, expr))
            .or(domain_fault(number, *over, *every)),
        Statement::Emit { expr, over, every } => expr_fault(number, declared, true, expr).or(
            domain_fault(number, Some(*over), *every),
        ),
    }
}

// The fault of the name that the statement declares.
fn name_fault(statement: u32, declared: &[Declared], name: &Name) -> Option<CheckFault>
    ensures { result ≡ name_fault statement declared.now name.now }
{
    if is_declared(declared, name) {
        return Some(CheckFault::NameTaken { statement });
    }
    None
}

// The first fault of the statement's expression.
fn expr_fault(
    statement: u32,
    declared: &[Declared],
    emitted: bool,
    expr: &Expr,
) -> Option<CheckFault>
    ensures { result ≡ expr_fault statement declared.now emitted (expr_tree expr.now) }
{
    if !knows_names(declared, expr) {
        Some(CheckFault::UnknownName { statement })
    } else if !is_fitting(emitted, type_of(declared, expr)) {
        Some(CheckFault::TypeMismatch { statement })
    } else if !has_windows(expr) {
        Some(CheckFault::BadWindow { statement })
    } else {
        None
    }
}

// The fault of the statement's span and grid.
fn domain_fault(statement: u32, over: Option<Span>, every: Option<Every>) -> Option<CheckFault>
    ensures { result ≡ domain_fault statement over every }
{
    if !is_domain(over, every) {
        return Some(CheckFault::BadDomain { statement });
    }
    None
}

// Whether the name was declared.
fn is_declared(declared: &[Declared], name: &Name) -> bool
    ensures { result ≡ is_declared declared.now name.now }
{
    type_declared(declared, name).is_some()
}

// Whether each name in the expression was declared.
fn knows_names(declared: &[Declared], expr: &Expr) -> bool
    ensures { result ≡ knows_names declared.now (expr_tree expr.now) }
{
    match expr {
        Expr::Num(_) | Expr::Truth(_) => true,
        Expr::Read { name, .. } | Expr::Reduce { name, .. } => is_declared(declared, name),
        Expr::One(_, a) => knows_names(declared, a),
        Expr::Two(_, a, b) => knows_names(declared, a) && knows_names(declared, b),
        Expr::If(c, a, b) => {
            knows_names(declared, c) && knows_names(declared, a) && knows_names(declared, b)
        }
    }
}

// Whether an expression of this type may be in a definition.
fn is_fitting(emitted: bool, value_type: Option<ValueType>) -> bool
    ensures { result ≡ is_fitting emitted value_type }
{
    match value_type {
        None => false,
        Some(a) => !emitted || same_type(a, ValueType::Int),
    }
}

// Whether each window in the expression ends after its start.
fn has_windows(expr: &Expr) -> bool
    ensures { result ≡ has_windows (expr_tree expr.now) }
{
    match expr {
        Expr::Num(_) | Expr::Truth(_) | Expr::Read { .. } => true,
        Expr::Reduce { from, to, .. } => from < to,
        Expr::One(_, a) => has_windows(a),
        Expr::Two(_, a, b) => has_windows(a) && has_windows(b),
        Expr::If(c, a, b) => has_windows(c) && has_windows(a) && has_windows(b),
    }
}

// Whether the span and the grid, where they are written, may stand together.
fn is_domain(over: Option<Span>, every: Option<Every>) -> bool
    ensures { result ≡ is_domain over every }
{
    let Some(grid) = grid_of(every) else {
        return false;
    };
    match over {
        None => true,
        Some(span) => is_stretch(span) && has_bounds_on(span, grid),
    }
}

/// Whether the span bounds a stretch of time from `-T` to `T`.
pub fn is_stretch(span: Span) -> bool
    ensures { result ≡ is_stretch (Some span) }
{
    -T <= span.start && span.start < span.end && span.end <= T
}

// Whether the bounds of the span are points of the grid.
fn has_bounds_on(span: Span, grid: Grid) -> bool
    ensures { result ≡ (is_point grid span.start && is_point grid span.end) }
{
    grid.is_point(i128::from(span.start)) && grid.is_point(i128::from(span.end))
}
