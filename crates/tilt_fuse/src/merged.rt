use crate::fused::Fused;
use std::marker::Model;

/// A source: what it computes if it was merged into its users, and `None` if it has a buffer. A clause sees it as plain
/// data.
#[derive(Debug, Drop)]
pub struct Merged {
    pub tree: Option<Fused>,
}

impl Model for Merged {
    ghost use Rattle.std.specs.Prelude.{Option, option_map};
    ghost use Rattle.std.specs.Coded.{coded_option};
    ghost use Rattle.tilt_fuse.specs.FusedTree.{FusedTree, coded_fused, fused_tree_of};

    ghost Value = { Option FusedTree };

    ghost coded = { coded_option coded_fused };

    ghost view = { λ m. option_map fused_tree_of m.tree };
}
