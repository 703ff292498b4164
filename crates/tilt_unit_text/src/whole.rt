// The core of a query over whole numbers.
ghost use Rattle.std.specs.Prelude.{◌≡◌, ◌+◌, ◌^◌, ◌<◌, ◌≤◌, [], ◌++◌, ◌∷◌, true, List, OnOk, IfOk, MatchOption, length, map};
ghost use Rattle.tilt_core.specs.Core.{IsCore};
ghost use Rattle.tilt_core.specs.CoreTree.{nodes, tree_of};
ghost use Rattle.tilt_syntax.specs.Query.{IsQuery};
ghost use Rattle.tilt_syntax.specs.Tree.{Input, StatementTree, statement_tree};
ghost use Rattle.tilt_units.specs.Translation.{query_of};
ghost use Rattle.tilt_unit_text.specs.Named.{is_definition, whole_statement, whole_statements};
ghost use Rattle.tilt_unit_text.specs.Reading.{Gives};
ghost use Rattle.tilt_unit_text.specs.Size.{AreShort};
ghost use Rattle.tilt_unit_text.specs.Units.{IsTranslation, large_fault, parts_of, whole_query};

use crate::fault::UnitFault;
use crate::named::named;
use crate::size::long_fault;
use crate::statement::statement_of;
use crate::unit_query::UnitQuery;
use std::alloc::{AllocError as OutOfMemory, Global};
use tilt_core::{Core, Def, Tree};
use tilt_lexer::Name;
use tilt_syntax::{Query, Statement};
use tilt_units::Translated;

// The most nodes that an expression may have.
const MOST: u32 = 256;

// The query with the names of a core, whose definitions were translated.
pub(crate) fn whole_query(
    alloc: Global,
    query: &Query,
    core: &Core,
    translated: Translated,
) -> Result<UnitQuery, UnitFault>
    requires core { IsTranslation core.now (query_of translated) }
    // If the statements over whole numbers are short enough, some text reads as them.
    requires written { IsQuery query.now → AreShort (whole_statements query.now (query_of translated).defs)
        → IsQuery (whole_statements query.now (query_of translated).defs) }
    ensures { Gives parts_of result (whole_query query.now core.now (query_of translated)) }
{
    let inputs = copy_names(alloc, core.inputs())?;
    let names = copy_names(alloc, core.names())?;
    let statements = whole_statements(alloc, query.statements(), &translated.defs)?;
    match large_fault(query.statements(), &translated.defs).or(long_fault(&statements)) {
        Some(fault) => Err(fault),
        None => Ok(UnitQuery {
            query: Query::new(statements),
            core: Core::new(inputs, names, translated.defs),
            quantities: translated.quantities,
        }),
    }
}

// The statements with the numbers of the definitions over whole numbers.
fn whole_statements(
    alloc: Global,
    statements: &[Statement],
    defs: &[Def],
) -> Result<Vec<Statement>, OutOfMemory>
    ensures { IfOk result (λ whole. map statement_tree whole.items
        ≡ whole_statements (map statement_tree statements.now) defs.now) }
{
    let mut whole = Vec::new(alloc);
    let mut rest = defs;
    for statement in statements {
        rest = push_statement(alloc, &mut whole, statement, rest)?;
    }
    Ok(whole)
}

// Adds one more statement, with the first of the definitions if it is one. What is left are the others.
fn push_statement<'a>(
    alloc: Global,
    whole: &mut Vec<Statement>,
    statement: &Statement,
    defs: &'a [Def],
) -> Result<&'a [Def], OutOfMemory>
    ensures { IfOk result (λ rest. (more : List StatementTree)
        → map statement_tree whole.new.items ++ whole_statements more rest.now
        ≡ map statement_tree whole.old.items ++ whole_statements (statement_tree statement.now ∷ more) defs.now) }
{
    match statement {
        Statement::Input { name } => {
            push_input(whole, name)?;
            Ok(defs)
        }
        Statement::Let { .. } | Statement::Emit { .. } => {
            push_definition(alloc, whole, statement, defs)
        }
    }
}

// Adds an input.
fn push_input(whole: &mut Vec<Statement>, name: &Name) -> Result<(), OutOfMemory>
    ensures { OnOk result (map statement_tree whole.new.items ≡ map statement_tree whole.old.items ++ Input name.now ∷ []) }
{
    whole.push(Statement::Input { name: name.copy()? })?;
    Ok(())
}

// Adds a definition, if there is one of the core for it. What is left are the others.
fn push_definition<'a>(
    alloc: Global,
    whole: &mut Vec<Statement>,
    statement: &Statement,
    defs: &'a [Def],
) -> Result<&'a [Def], OutOfMemory>
    requires { is_definition (statement_tree statement.now) ≡ true }
    ensures { IfOk result (λ rest. (more : List StatementTree)
        → map statement_tree whole.new.items ++ whole_statements more rest.now
        ≡ map statement_tree whole.old.items ++ whole_statements (statement_tree statement.now ∷ more) defs.now) }
{
    match defs.split_first() {
        None => Ok(defs),
        Some((def, rest)) => {
            push_whole(alloc, whole, statement, def)?;
            Ok(rest)
        }
    }
}

// Adds a statement with the numbers of a definition.
fn push_whole(
    alloc: Global,
    whole: &mut Vec<Statement>,
    statement: &Statement,
    def: &Def,
) -> Result<(), OutOfMemory>
    ensures { OnOk result (map statement_tree whole.new.items
        ≡ map statement_tree whole.old.items ++ whole_statement (statement_tree statement.now) def.now ∷ []) }
{
    whole.push(whole_statement(alloc, statement, def)?)?;
    Ok(())
}

// A statement with the numbers of a definition.
fn whole_statement(
    alloc: Global,
    statement: &Statement,
    def: &Def,
) -> Result<Statement, OutOfMemory>
    ensures { IfOk result (λ whole. statement_tree whole ≡ whole_statement (statement_tree statement.now) def.now) }
{
    match statement {
        Statement::Input { name } => Ok(Statement::Input { name: name.copy()? }),
        Statement::Let {
            name,
            expr,
            over,
            every,
        } => Ok(Statement::Let {
            name: name.copy()?,
            expr: named(alloc, expr, &def.body)?,
            over: *over,
            every: *every,
        }),
        Statement::Emit { expr, over, every } => Ok(Statement::Emit {
            expr: named(alloc, expr, &def.body)?,
            over: *over,
            every: *every,
        }),
    }
}

// Equal names.
fn copy_names(alloc: Global, names: &[Name]) -> Result<Vec<Name>, OutOfMemory>
    ensures { IfOk result (λ copies. copies.items ≡ names.now) }
{
    let mut copies = Vec::new(alloc);
    push_names(&mut copies, names)?;
    Ok(copies)
}

// Adds equal names.
pub(crate) fn push_names(copies: &mut Vec<Name>, names: &[Name]) -> Result<(), OutOfMemory>
    ensures { OnOk result (copies.new.items ≡ copies.old.items ++ names.now) }
{
    for name in names {
        copies.push(name.copy()?)?;
    }
    Ok(())
}

// The fault of the first definition of which the expression has too many nodes.
fn large_fault(statements: &[Statement], defs: &[Def]) -> Option<UnitFault>
    requires few { length statements.now ≤ 256 }
    requires small { length defs.now < 2 ^ 32 }
    ensures { result ≡ large_fault (map statement_tree statements.now) 0 defs.now }
{
    let mut definition = 0;
    for def in defs {
        if budget_after(&def.body, MOST).is_none() {
            return Some(UnitFault::WholeTooLarge {
                statement: statement_of(statements, definition),
            });
        }
        definition += 1;
    }
    None
}

// What is left of a number of nodes after those of an expression, or `None` if it has more.
fn budget_after(tree: &Tree, budget: u32) -> Option<u32>
    ensures { MatchOption result (budget < nodes (tree_of tree.now)) (λ rest. rest + nodes (tree_of tree.now) ≡ budget) }
{
    match tree {
        Tree::Const(_) | Tree::Read { .. } | Tree::Reduce { .. } => budget.checked_sub(1),
        Tree::One(_, a) => budget_after(a, budget.checked_sub(1)?),
        Tree::Two(_, a, b) => budget_after(b, budget_after(a, budget.checked_sub(1)?)?),
        Tree::If(c, a, b) => {
            let rest = budget_after(c, budget.checked_sub(1)?)?;
            budget_after(b, budget_after(a, rest)?)
        }
    }
}
