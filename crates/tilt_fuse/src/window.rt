// Windows on merged sources.
ghost use Rattle.std.specs.Prelude.{◌≡◌, ◌+ℤ◌, Some, IfOk, IfSome};
ghost use Rattle.tilt_base.specs.Offset.{IsOffset};
ghost use Rattle.tilt_fuse.specs.FusedTree.{Win, WinBy, fused_tree_of};
ghost use Rattle.tilt_fuse.specs.Plan.{as_map, is_port, window_on, window_over};
ghost use Rattle.tilt_fuse.specs.Trees.{IsNear};

use crate::fused::Fused;
use crate::merged::Merged;
use crate::reading::{Reading, only_reading};
use std::alloc::{AllocError as OutOfMemory, Global};
use tilt_base::Reducer;

/// A window: what the reducer gives on the ticks `t+from+1` to `t+to`.
#[derive(Clone, Copy, Debug)]
pub struct Window {
    pub reducer: Reducer,
    pub from: i64,
    pub to: i64,
}

/// The window on a source: on the one reading that the source's tree is made from, if it was merged.
pub fn window_on(
    alloc: Global,
    merged: &Merged,
    window: Window,
    source: u32,
) -> Result<Fused, OutOfMemory>
    requires merged { IfSome merged.now IsNear }
    requires from { IsOffset window.from }
    requires to { IsOffset window.to }
    ensures { IfOk result (λ made. fused_tree_of made ≡ window_on merged.now window.reducer source window.from window.to) }
{
    match &merged.tree {
        None => Ok(window_at(window, source)),
        Some(tree) => window_on_tree(alloc, tree, window, source),
    }
}

// The window on a source with a buffer.
fn window_at(window: Window, source: u32) -> Fused
    ensures { fused_tree_of result ≡ Win window.reducer source window.from window.to }
{
    Fused::Win {
        reducer: window.reducer,
        source,
        from: window.from,
        to: window.to,
        map: None,
    }
}

// The window on a source that was merged and has this tree.
fn window_on_tree(
    alloc: Global,
    tree: &Fused,
    window: Window,
    source: u32,
) -> Result<Fused, OutOfMemory>
    requires tree { IsNear (fused_tree_of tree.now) }
    requires from { IsOffset window.from }
    requires to { IsOffset window.to }
    ensures { IfOk result (λ made. fused_tree_of made
        ≡ window_on (Some (fused_tree_of tree.now)) window.reducer source window.from window.to) }
{
    match only_reading(tree) {
        None => Ok(window_at(window, source)),
        Some(reading) => window_over(alloc, tree, reading, window),
    }
}

// The window on the one reading that a tree is made from.
fn window_over(
    alloc: Global,
    tree: &Fused,
    reading: Reading,
    window: Window,
) -> Result<Fused, OutOfMemory>
    requires offset { IsOffset reading.offset }
    requires from { IsOffset window.from }
    requires to { IsOffset window.to }
    ensures { IfOk result (λ made. fused_tree_of made
        ≡ window_over (fused_tree_of tree.now) reading window.reducer window.from window.to) }
{
    let window = moved_window(window, reading.offset);
    if is_port(tree) {
        return Ok(window_at(window, reading.source));
    }
    let map = as_map(alloc, tree)?;
    window_by(alloc, map, window, reading.source)
}

// The window so many ticks later.
fn moved_window(window: Window, by: i64) -> Window
    requires by { IsOffset by }
    requires from { IsOffset window.from }
    requires to { IsOffset window.to }
    ensures { result ≡ record { reducer = window.reducer; from = window.from +ℤ by; to = window.to +ℤ by } }
{
    Window {
        reducer: window.reducer,
        from: window.from + by,
        to: window.to + by,
    }
}

// The window on a source by a map.
fn window_by(alloc: Global, map: Fused, window: Window, source: u32) -> Result<Fused, OutOfMemory>
    ensures { IfOk result (λ made. fused_tree_of made
        ≡ WinBy (fused_tree_of map) window.reducer source window.from window.to) }
{
    Ok(Fused::Win {
        reducer: window.reducer,
        source,
        from: window.from,
        to: window.to,
        map: Some(Box::new(alloc, map)?),
    })
}

// Whether a tree is a port alone.
fn is_port(tree: &Fused) -> bool
    ensures { result ≡ is_port (fused_tree_of tree.now) }
{
    matches!(tree, Fused::Port { .. })
}

// A tree as a map: what it reads is the argument.
fn as_map(alloc: Global, tree: &Fused) -> Result<Fused, OutOfMemory>
    ensures { IfOk result (λ map. fused_tree_of map ≡ as_map (fused_tree_of tree.now)) }
{
    Ok(match tree {
        Fused::Const(number) => Fused::Const(*number),
        Fused::Port { .. } | Fused::Win { .. } | Fused::Argument => Fused::Argument,
        Fused::One(op, a) => Fused::One(*op, Box::new(alloc, as_map(alloc, a)?)?),
        Fused::Two(op, a, b) => {
            let a = Box::new(alloc, as_map(alloc, a)?)?;
            let b = Box::new(alloc, as_map(alloc, b)?)?;
            Fused::Two(*op, a, b)
        }
        Fused::If(c, a, b) => {
            let c = Box::new(alloc, as_map(alloc, c)?)?;
            let a = Box::new(alloc, as_map(alloc, a)?)?;
            let b = Box::new(alloc, as_map(alloc, b)?)?;
            Fused::If(c, a, b)
        }
    })
}
