// The names of a watching query's definitions.
ghost use Rattle.std.specs.Prelude.{◌≡◌, ◌++◌, [], ◌∷◌, ◌+◌, ◌<◌, IfOk, OnOk, fold, length, max, replicate};
ghost use Rattle.tilt_overflows.specs.Watching.{more_names, most_bytes};

use std::alloc::{AllocError as OutOfMemory, Global};
use tilt_lexer::Name;

/// The names of the definitions of a query, and so many names more, which are longer than all names of the query.
pub(crate) fn watching_names(
    alloc: Global,
    inputs: &[Name],
    names: &[Name],
    more: u32,
) -> Result<Vec<Name>, OutOfMemory>
    ensures { IfOk result (λ all. all.items ≡ names.now ++ more_names (most_bytes (inputs.now ++ names.now)) more) }
{
    let bytes = most_bytes(most_bytes(0, inputs), names);
    let mut all = copy_names(alloc, names)?;
    push_more(alloc, &mut all, bytes, more)?;
    Ok(all)
}

/// The names in a list of their own.
pub(crate) fn copy_names(alloc: Global, names: &[Name]) -> Result<Vec<Name>, OutOfMemory>
    ensures { IfOk result (λ all. all.items ≡ names.now) }
{
    let mut all = Vec::new(alloc);
    for name in names {
        all.push(name.copy()?)?;
    }
    Ok(all)
}

// How many bytes the longest of the names has, if it has more than a number.
fn most_bytes(least: usize, names: &[Name]) -> usize
    ensures { result ≡ fold (λ most name. max most (length name)) least names.now }
{
    let mut most = least;
    for name in names {
        most = most.max(name.bytes().len());
    }
    most
}

// Adds so many names of nothing but `_`, each longer than a number.
fn push_more(alloc: Global, all: &mut Vec<Name>, bytes: usize, more: u32) -> Result<(), OutOfMemory>
    ensures { OnOk result (all.new.items ≡ all.old.items ++ more_names bytes more) }
{
    for before in 0..more {
        push_name(alloc, all, bytes, before)?;
    }
    Ok(())
}

// Adds the name of so many bytes, all `_`.
fn push_name(
    alloc: Global,
    all: &mut Vec<Name>,
    bytes: usize,
    before: u32,
) -> Result<(), OutOfMemory>
    ensures { OnOk result (all.new.items ≡ all.old.items ++ replicate (bytes + (before + 1)) 95 ∷ []) }
{
    let Some(count) = bytes.checked_add(before as usize + 1) else {
        return Err(OutOfMemory);
    };
    all.push(name_of(alloc, count)?)?;
    Ok(())
}

// The name of so many bytes, all `_`.
fn name_of(alloc: Global, count: usize) -> Result<Name, OutOfMemory>
    requires { 0 < count }
    ensures { IfOk result (λ name. name ≡ replicate count 95) }
{
    let bytes = vec![in alloc; b'_'; count]?;
    let Some(name) = Name::read(alloc, &bytes)? else {
        unreachable!()
    };
    Ok(name)
}
