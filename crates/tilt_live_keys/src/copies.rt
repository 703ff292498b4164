// The query of a recipe, compiled again for each key.
ghost use Rattle.std.specs.Prelude.{◌≡◌, ◌++◌, IfOk, OnOk};
ghost use Rattle.tilt_core.specs.CoreTree.{tree_of};

use std::alloc::{AllocError as OutOfMemory, Global};
use tilt_compiler::{Accepted, accept};
use tilt_core::{Core, Def, Tree};
use tilt_lexer::Name;

// The same query, with fusion or without.
pub(crate) fn compile_again(
    alloc: Global,
    accepted: &Accepted,
    fuse: bool,
) -> Result<Accepted, OutOfMemory>
    ensures { IfOk result (λ again. again.core ≡ accepted.now.core) }
{
    let core = copy_core(alloc, accepted.core())?;
    match accept(alloc, core, fuse) {
        Ok(again) => Ok(again),
        // It doesn't look too far, since it was accepted before.
        Err(_) => Err(OutOfMemory),
    }
}

// An equal core.
fn copy_core(alloc: Global, core: &Core) -> Result<Core, OutOfMemory>
    ensures { IfOk result (λ copy. copy ≡ core.now) }
{
    let inputs = copy_names(alloc, core.inputs())?;
    let names = copy_names(alloc, core.names())?;
    let defs = copy_defs(alloc, core.defs())?;
    Ok(Core::new(inputs, names, defs))
}

// Equal names.
fn copy_names(alloc: Global, names: &[Name]) -> Result<Vec<Name>, OutOfMemory>
    ensures { IfOk result (λ copies. copies.items ≡ names.now) }
{
    let mut copies = Vec::new(alloc);
    push_names(&mut copies, names)?;
    Ok(copies)
}

// Adds equal names.
fn push_names(copies: &mut Vec<Name>, names: &[Name]) -> Result<(), OutOfMemory>
    ensures { OnOk result (copies.new.items ≡ copies.old.items ++ names.now) }
{
    for name in names {
        copies.push(name.copy()?)?;
    }
    Ok(())
}

// Equal definitions.
fn copy_defs(alloc: Global, defs: &[Def]) -> Result<Vec<Def>, OutOfMemory>
    ensures { IfOk result (λ copies. copies.items ≡ defs.now) }
{
    let mut copies = Vec::new(alloc);
    push_defs(alloc, &mut copies, defs)?;
    Ok(copies)
}

// Adds equal definitions.
fn push_defs(alloc: Global, copies: &mut Vec<Def>, defs: &[Def]) -> Result<(), OutOfMemory>
    ensures { OnOk result (copies.new.items ≡ copies.old.items ++ defs.now) }
{
    for def in defs {
        copies.push(copy_def(alloc, def)?)?;
    }
    Ok(())
}

// An equal definition.
fn copy_def(alloc: Global, def: &Def) -> Result<Def, OutOfMemory>
    ensures { IfOk result (λ copy. copy ≡ def.now) }
{
    let body = copy_tree(alloc, &def.body)?;
    Ok(Def {
        body,
        over: def.over,
        grid: def.grid,
    })
}

// An equal expression.
#[cycle(copies)]
fn copy_tree(alloc: Global, tree: &Tree) -> Result<Tree, OutOfMemory>
    ensures { IfOk result (λ copy. tree_of copy ≡ tree_of tree.now) }
{
    Ok(match tree {
        Tree::Const(number) => Tree::Const(*number),
        Tree::Read { source, offset } => Tree::Read {
            source: *source,
            offset: *offset,
        },
        Tree::Reduce {
            reducer,
            source,
            from,
            to,
        } => Tree::Reduce {
            reducer: *reducer,
            source: *source,
            from: *from,
            to: *to,
        },
        Tree::One(op, a) => Tree::One(*op, copy_boxed(alloc, a)?),
        Tree::Two(op, a, b) => {
            let a = copy_boxed(alloc, a)?;
            Tree::Two(*op, a, copy_boxed(alloc, b)?)
        }
        Tree::If(c, a, b) => {
            let c = copy_boxed(alloc, c)?;
            let a = copy_boxed(alloc, a)?;
            Tree::If(c, a, copy_boxed(alloc, b)?)
        }
    })
}

// The same, in a box.
#[cycle(copies)]
fn copy_boxed(alloc: Global, tree: &Tree) -> Result<Box<Tree>, OutOfMemory>
    ensures { IfOk result (λ copy. tree_of copy.value ≡ tree_of tree.now) }
{
    Ok(Box::new(alloc, copy_tree(alloc, tree)?)?)
}
