// What a tree reads, if that is one source at one offset.
ghost use Rattle.std.specs.Prelude.{◌≡◌, IfSome};
ghost use Rattle.tilt_base.specs.Offset.{IsOffset};
ghost use Rattle.tilt_fuse.specs.FusedTree.{fused_tree_of};
ghost use Rattle.tilt_fuse.specs.Plan.{first_port, only_reading, reads_only};
ghost use Rattle.tilt_fuse.specs.Trees.{IsNear};

use crate::fused::Fused;

/// A source, and the ticks by which it is read later.
#[derive(Clone, Copy, Debug, PartialEq, Eq)]
pub struct Reading {
    pub source: u32,
    pub offset: i64,
}

/// The one reading that a tree without windows is made from, if its ports are all the same.
pub fn only_reading(tree: &Fused) -> Option<Reading>
    ensures reading { result ≡ only_reading (fused_tree_of tree.now) }
    ensures near { IsNear (fused_tree_of tree.now) → IfSome result (λ p. IsOffset p.offset) }
{
    let reading = first_port(tree)?;
    if reads_only(tree, reading) {
        Some(reading)
    } else {
        None
    }
}

// The first port of a tree, from the left.
fn first_port(tree: &Fused) -> Option<Reading>
    ensures port { result ≡ first_port (fused_tree_of tree.now) }
    ensures near { IsNear (fused_tree_of tree.now) → IfSome result (λ p. IsOffset p.offset) }
{
    match tree {
        Fused::Const(_) | Fused::Win { .. } | Fused::Argument => None,
        Fused::Port { source, offset } => Some(Reading {
            source: *source,
            offset: *offset,
        }),
        Fused::One(_, a) => first_port(a),
        Fused::Two(_, a, b) => first_port(a).or(first_port(b)),
        Fused::If(c, a, b) => first_port(c).or(first_port(a)).or(first_port(b)),
    }
}

// Whether a tree has no window, and all its ports are this reading.
fn reads_only(tree: &Fused, reading: Reading) -> bool
    ensures { result ≡ reads_only reading (fused_tree_of tree.now) }
{
    match tree {
        Fused::Const(_) | Fused::Argument => true,
        Fused::Port { source, offset } => *source == reading.source && *offset == reading.offset,
        Fused::Win { .. } => false,
        Fused::One(_, a) => reads_only(a, reading),
        Fused::Two(_, a, b) => reads_only(a, reading) && reads_only(b, reading),
        Fused::If(c, a, b) => reads_only(c, reading)
            && reads_only(a, reading)
            && reads_only(b, reading),
    }
}
