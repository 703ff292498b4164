// The core of a well-formed query.
ghost use Rattle.std.specs.Prelude.{◌≡◌, ◌≤◌, ◌++◌, [], ◌∷◌, length, map, IfOk, OnOk, IsTrue};
ghost use Rattle.std.specs.List.{AllByRecursion};
ghost use Rattle.tilt_base.specs.Grid.{is_grid};
ghost use Rattle.tilt_lexer.specs.Word.{IsWord};
ghost use Rattle.tilt_syntax.specs.Tree.{expr_tree, statement_tree};
ghost use Rattle.tilt_types.specs.Checked.{core_of, definition, definitions, input_names, let_names, numbered, place_of};
ghost use Rattle.tilt_core.specs.CoreTree.{tree_of};
ghost use Rattle.tilt_types.specs.WellFormed.{IsWellFormed, grid_of, statement_grid};

use crate::grid::grid_of;
use std::alloc::{AllocError as OutOfMemory, Global};
use tilt_base::Span;
use tilt_core::{Core, Def, Tree};
use tilt_lexer::{Name, is_word};
use tilt_syntax::{Every, Expr, Query, Statement};

// The core of the query, which is well formed.
pub(crate) fn build(alloc: Global, query: &Query) -> Result<Core, OutOfMemory>
    requires { IsWellFormed query.now }
    ensures { IfOk result (λ core. core ≡ core_of query.now) }
{
    let statements = query.statements();
    let mut sources = input_names(alloc, statements)?;
    let count = sources.len();
    push_let_names(&mut sources, statements)?;
    let defs = definitions(alloc, &sources, statements)?;
    let names = sources.split_off(count)?;
    Ok(Core::new(sources, names, defs))
}

// The names of the inputs.
fn input_names(alloc: Global, statements: &[Statement]) -> Result<Vec<Name>, OutOfMemory>
    ensures names { IfOk result (λ names. names.items ≡ input_names (map statement_tree statements.now)) }
    ensures words { IfOk result (λ names. AllByRecursion IsWord names.items) }
{
    let mut names = Vec::new(alloc);
    for statement in statements {
        push_input_name(&mut names, statement)?;
    }
    Ok(names)
}

// Adds the name of the statement, where it is an input.
fn push_input_name(names: &mut Vec<Name>, statement: &Statement) -> Result<(), OutOfMemory>
    ensures names { OnOk result (names.new.items ≡ names.old.items ++ input_names (statement_tree statement.now ∷ [])) }
    ensures words { OnOk result (AllByRecursion IsWord (input_names (statement_tree statement.now ∷ []))) }
{
    if let Statement::Input { name } = statement {
        push_name(names, name)?;
    }
    Ok(())
}

// Adds the names of the definitions.
fn push_let_names(names: &mut Vec<Name>, statements: &[Statement]) -> Result<(), OutOfMemory>
    ensures names { OnOk result (names.new.items ≡ names.old.items ++ let_names (map statement_tree statements.now)) }
    ensures words { OnOk result (AllByRecursion IsWord names.old.items → AllByRecursion IsWord names.new.items) }
{
    for statement in statements {
        push_let_name(names, statement)?;
    }
    Ok(())
}

// Adds the name of the statement, where it is a definition that has one.
fn push_let_name(names: &mut Vec<Name>, statement: &Statement) -> Result<(), OutOfMemory>
    ensures names { OnOk result (names.new.items ≡ names.old.items ++ let_names (statement_tree statement.now ∷ [])) }
    ensures words { OnOk result (AllByRecursion IsWord (let_names (statement_tree statement.now ∷ []))) }
{
    if let Statement::Let { name, .. } = statement {
        push_name(names, name)?;
    }
    Ok(())
}

// Adds an equal name.
fn push_name(names: &mut Vec<Name>, name: &Name) -> Result<(), OutOfMemory>
    ensures name { OnOk result (names.new.items ≡ names.old.items ++ name.now ∷ []) }
    ensures word { IsWord name.now }
{
    prove!(is_word(name.bytes()));
    names.push(name.copy()?)?;
    Ok(())
}

// The definitions, over the names of all sources.
fn definitions(
    alloc: Global,
    sources: &[Name],
    statements: &[Statement],
) -> Result<Vec<Def>, OutOfMemory>
    requires few { length sources.now ≤ 256 }
    requires well_formed { IsWellFormed (map statement_tree statements.now) }
    ensures { IfOk result (λ defs. defs.items ≡ definitions sources.now (map statement_tree statements.now)) }
{
    let mut defs = Vec::new(alloc);
    for statement in statements {
        push_definition(alloc, &mut defs, sources, statement)?;
    }
    Ok(defs)
}

// Adds the definition of the statement, where it is one.
fn push_definition(
    alloc: Global,
    defs: &mut Vec<Def>,
    sources: &[Name],
    statement: &Statement,
) -> Result<(), OutOfMemory>
    requires few { length sources.now ≤ 256 }
    requires grid { IsTrue (is_grid (statement_grid (statement_tree statement.now))) }
    ensures { OnOk result (defs.new.items ≡ defs.old.items ++ definitions sources.now (statement_tree statement.now ∷ [])) }
{
    match statement {
        Statement::Input { .. } => {}
        Statement::Let {
            expr,
            over,
            every,
            ..
        } => defs.push(definition(alloc, sources, expr, *over, *every)?)?,
        Statement::Emit { expr, over, every } => {
            defs.push(definition(alloc, sources, expr, Some(*over), *every)?)?;
        }
    }
    Ok(())
}

// The definition with this expression, span and grid.
fn definition(
    alloc: Global,
    sources: &[Name],
    expr: &Expr,
    over: Option<Span>,
    every: Option<Every>,
) -> Result<Def, OutOfMemory>
    requires few { length sources.now ≤ 256 }
    requires grid { IsTrue (is_grid (grid_of every)) }
    ensures { IfOk result (λ def. def ≡ definition sources.now (expr_tree expr.now) over every) }
{
    let body = numbered(alloc, sources, expr)?;
    let Some(grid) = grid_of(every) else {
        unreachable!()
    };
    Ok(Def { body, over, grid })
}

// The expression with each name as its number among the sources, and truth values as 1 and 0.
#[cycle(numbered)]
fn numbered(alloc: Global, sources: &[Name], expr: &Expr) -> Result<Tree, OutOfMemory>
    requires { length sources.now ≤ 256 }
    ensures { IfOk result (λ tree. tree_of tree ≡ numbered sources.now (expr_tree expr.now)) }
{
    Ok(match expr {
        Expr::Num(number) => Tree::Const(*number),
        Expr::Truth(holds) => Tree::Const(i64::from(*holds)),
        Expr::Read { name, offset } => Tree::Read {
            source: place_of(sources, name) as u32,
            offset: *offset,
        },
        Expr::Reduce {
            reducer,
            name,
            from,
            to,
        } => Tree::Reduce {
            reducer: *reducer,
            source: place_of(sources, name) as u32,
            from: *from,
            to: *to,
        },
        Expr::One(op, a) => Tree::One(*op, boxed(alloc, sources, a)?),
        Expr::Two(op, a, b) => {
            let a = boxed(alloc, sources, a)?;
            Tree::Two(*op, a, boxed(alloc, sources, b)?)
        }
        Expr::If(c, a, b) => {
            let c = boxed(alloc, sources, c)?;
            let a = boxed(alloc, sources, a)?;
            Tree::If(c, a, boxed(alloc, sources, b)?)
        }
    })
}

// The same, in a box.
#[cycle(numbered)]
fn boxed(alloc: Global, sources: &[Name], expr: &Expr) -> Result<Box<Tree>, OutOfMemory>
    requires { length sources.now ≤ 256 }
    ensures { IfOk result (λ tree. tree_of tree.value ≡ numbered sources.now (expr_tree expr.now)) }
{
    Ok(Box::new(alloc, numbered(alloc, sources, expr)?)?)
}

// The place of the name among names; their number where it is none of them.
fn place_of(names: &[Name], name: &Name) -> usize
    ensures place { result ≡ place_of names.now name.now }
    ensures within { result ≤ length names.now }
{
    for (place, other) in names.iter().enumerate() {
        if other.bytes() == name.bytes() {
            return place;
        }
    }
    names.len()
}
